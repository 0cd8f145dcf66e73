ghost use Rattle.std.specs.Prelude.{◌≡◌, ◌+◌, ◌<◌, ◌≤◌, ◌++◌, ◌∷◌, true, length, take, drop, slice_index, IfSome, IfNone};
ghost use Rattle.qd_line.specs.Lines.{is_one_line, without_cr};

use memchr::memchr;

/// The most bytes of a line without its LF.
pub(crate) const MOST: usize = 4096;

/// Where the first LF stands, within the bytes that a line may have and one more; the first `searched` bytes have
/// none.
pub(crate) fn feed_at(left: &[u8], searched: usize) -> Option<usize>
    requires within { searched ≤ length left.now }
    requires most { searched ≤ 4097 }
    requires searched { is_one_line (take searched left.now) ≡ true }
    ensures place { IfSome result (λ at. (at < length left.now) × (at ≤ 4096)) }
    ensures before { IfSome result (λ at. is_one_line (take at left.now) ≡ true) }
    ensures feed { IfSome result (λ at. left.now ≡ take at left.now ++ 10 ∷ drop (at + 1) left.now) }
    ensures none { IfNone result (is_one_line (take 4097 left.now) ≡ true) }
{
    let window = left.len().min(MOST + 1);
    let at = memchr(b'\n', &left[searched..window])?;
    Some(searched + at)
}

/// The length of a line without a CR at its end.
pub(crate) fn text_len(line: &[u8]) -> usize
    ensures text { take result line.now ≡ without_cr line.now }
    ensures within { result ≤ length line.now }
{
    let len = line.len();
    if len > 0 && line[len - 1] == b'\r' {
        return len - 1;
    }
    len
}
