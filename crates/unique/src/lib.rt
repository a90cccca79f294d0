// Each public function's own statement allows one result; what the theorems suppose of a call. No code.
#![tactic(auto)]
