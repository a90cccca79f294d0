// What C calls to check: a block of bytes. `hostcheck_c` is what it links.
#![tactic(auto)]

ghost use Rattle.std.specs.Prelude.{◌≡◌};
ghost use Rattle.bytecheck.specs.Check.{check_number};

pub fn fadc250_check(bytes: &[u8]) -> u64
    ensures { result ≡ check_number bytes.now }
{
    bytecheck::check_bytes(bytes)
}
