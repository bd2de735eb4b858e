ghost use Rattle.std.specs.Prelude.{◌≡◌};
ghost use Rattle.schedule.specs.Lines.{Numbered};
ghost use Rattle.schedule.specs.Pieces.{Cuts, Leads, number_in, plain, with_digit};

// What stands before the first `mark`, and what stands behind it.
pub(crate) fn cut(text: &[u8], mark: u8) -> Option<(&[u8], &[u8])>
    ensures { Cuts mark text.now result }
{
    let i = text.iter().position(|b| *b == mark)?;
    Some((&text[..i], &text[i + 1..]))
}

// Whether a text can be a number by its front: it is not empty, and begins with 0 only if that is all.
fn is_plain(text: &[u8]) -> bool
    ensures { result ≡ plain text.now }
{
    match text {
        [] => false,
        [_] => true,
        [first, ..] => *first != b'0',
    }
}

// `n` with one more digit behind it, if `b` is a digit and that number is at most `most`.
fn with_digit(n: u32, b: u8, most: u32) -> Option<u32>
    ensures { result ≡ with_digit most n b }
{
    if !b.is_ascii_digit() {
        return None;
    }
    let longer = n.checked_mul(10)?.checked_add(u32::from(b - b'0'))?;
    if longer <= most { Some(longer) } else { None }
}

// The number that `text` writes, if it is at most `most`. Not by `parse`, which reads `+7` and `07` too.
pub(crate) fn figures(text: &[u8], most: u32) -> Option<u32>
    ensures { result ≡ number_in most text.now }
{
    if !is_plain(text) {
        return None;
    }
    let mut n = 0;
    for b in text {
        n = with_digit(n, *b, most)?;
    }
    Some(n)
}

// The number before the first `mark`, if it is at most `most`, and what stands behind that mark.
pub(crate) fn leading_figures(text: &[u8], mark: u8, most: u32) -> Option<(u32, &[u8])>
    ensures { Leads mark most text.now result }
{
    let (front, rest) = cut(text, mark)?;
    Some((figures(front, most)?, rest))
}

// The number of which `text` is the decimal form, if it is at most `most`.
pub fn number(text: &[u8], most: u32) -> Option<u32>
    ensures { Numbered most text.now result }
{
    figures(text, most)
}
