// Where a pulse is: document 01, "Finding pulses". Samples are numbered from 1, so 0 says that a search found none.
#![tactic(auto)]

ghost use Rattle.std.specs.Prelude.{◌≡◌, ◌+◌, ◌≤◌, length, IsTrue};
ghost use Rattle.ground.specs.Search.{least};
ghost use Rattle.search.specs.Search.{over, any_over, next_tc, tc_from, early};
ghost use Rattle.search.specs.Chunk.{NoneOver, Passed};

// The samples of a small chunk. A search begins with so many one by one: where pulses are many, the next one is near.
const FEW: usize = 16;

// The samples of a large chunk.
const MANY: usize = 64;

// Sample k is over the threshold.
fn is_over(window: &[u16], threshold: u32, k: usize) -> bool
    requires { (1 ≤ k) × (k ≤ length window.now) }
    ensures { result ≡ over window.now threshold k }
{
    samples::over(threshold, window[k - 1])
}

// The first of the n samples after s that is over.
fn first_over(window: &[u16], threshold: u32, s: usize, n: usize) -> usize
    requires { s + n ≤ length window.now }
    ensures { result ≡ least (over window.now threshold) s (s + n) }
{
    for j in 0..n {
        if is_over(window, threshold, s + j + 1) {
            return s + j + 1;
        }
    }
    0
}

// No sample of the chunk is over. No early way out: where the length is known, eight are compared at once.
fn is_quiet(chunk: &[u16], threshold: u32) -> bool
    ensures { IsTrue result → NoneOver threshold chunk.now }
{
    let high = chunk.iter().fold(
        0,
        |high: u16, sample| high.max(samples::amplitude(*sample) as u16),
    );
    u32::from(high) <= threshold
}

// How far the search from s may go on at once: past chunks of that size in which none is over. The last may overlap the one before it.
fn quiet_to<const SIZE: usize>(window: &[u16], threshold: u32, s: usize) -> usize
    requires { (s ≤ length window.now) × (1 ≤ SIZE) × (SIZE ≤ 64) }
    ensures { Passed (over window.now threshold) s (length window.now) result }
{
    let Some(last) = window.last_chunk::<SIZE>() else {
        return s;
    };
    let (chunks, rest) = window[s..].as_chunks::<SIZE>();
    for (i, chunk) in chunks.iter().enumerate() {
        if !is_quiet(chunk, threshold) {
            return s + i * SIZE;
        }
    }
    if rest.is_empty() || is_quiet(last, threshold) {
        window.len()
    } else {
        s + chunks.len() * SIZE
    }
}

// The first sample after s that is over: a few samples one by one, then large chunks, then small ones.
fn over_after(window: &[u16], threshold: u32, s: usize) -> usize
    requires { s ≤ length window.now }
    ensures { result ≡ least (over window.now threshold) s (length window.now) }
{
    let n = window.len();
    let mut k = s;
    // A `while`, since how far a turn goes on depends on what it finds.
    while FEW <= n - k {
        let found = first_over(window, threshold, k, FEW);
        if found != 0 {
            return found;
        }
        let far = quiet_to::<MANY>(window, threshold, k + FEW);
        if far == n {
            return 0;
        }
        k = quiet_to::<FEW>(window, threshold, far);
    }
    first_over(window, threshold, k, n - k)
}

// Any sample of the window is over.
pub fn any_over(window: &[u16], threshold: u32) -> bool
    ensures { result ≡ any_over window.now threshold }
{
    0 < over_after(window, threshold, 0)
}

// The TC after s of a pulse that is not the first: over, and its neighbour is not. From a sample that is not over on, that is the first that is over.
fn next_tc(window: &[u16], threshold: u32, s: usize) -> usize
    requires { 1 ≤ s }
    ensures { result ≡ next_tc window.now threshold s }
{
    for k in s..window.len() {
        if !is_over(window, threshold, k) {
            return over_after(window, threshold, k);
        }
    }
    0
}

// The TC that the search from s finds; s is 0 for the first pulse.
pub fn tc_from(window: &[u16], threshold: u32, s: usize) -> usize
    ensures { result ≡ tc_from window.now threshold s }
{
    if s == 0 {
        over_after(window, threshold, 0)
    } else {
        next_tc(window, threshold, s)
    }
}

// Fewer than four samples, or one of the first four is over.
pub fn is_early(window: &[u16], threshold: u32) -> bool
    ensures { result ≡ early window.now threshold }
{
    window.len() < 4 || 0 < first_over(window, threshold, 0, 4)
}
