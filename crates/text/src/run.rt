// Runs of bytes up to one that stops them, as lines and words are.
ghost use Rattle.std.specs.Prelude.{◌≡◌, ℕ, ◌<◌, ◌≤◌, length, ◌≢◌, slice_index};

// How many bytes stand before the first `stop`: all of them if there is none.
pub(crate) fn count_before(s: &[u8], stop: u8) -> usize
    ensures within { result ≤ length s.now }
    ensures before { (k : ℕ) → k < result → slice_index s.now k ≢ stop }
    ensures found { result < length s.now → slice_index s.now result ≡ stop }
{
    s.iter().position(|b| *b == stop).unwrap_or(s.len())
}
