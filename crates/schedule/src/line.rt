ghost use Rattle.std.specs.Prelude.{◌≡◌};
ghost use Rattle.schedule.specs.Lines.{Reads};
ghost use Rattle.schedule.specs.Words.{bare_of, call_of, called_of, keeper_of, kind_of, publish_of, word_of};

use crate::call::{Call, Kind};
use crate::text::{cut, figures, leading_figures};

// The words that a line can begin with.
#[derive(Clone, Copy)]
enum Word {
    Keeper,
    Open,
    Publish,
    Step,
    Close,
    Root,
    Stage,
    Current,
    Declared,
    Show,
}

// The word that `text` is.
fn word_in(text: &[u8]) -> Option<Word>
    ensures { result ≡ word_of text.now }
{
    match text {
        b"keeper" => Some(Word::Keeper),
        b"open" => Some(Word::Open),
        b"publish" => Some(Word::Publish),
        b"step" => Some(Word::Step),
        b"close" => Some(Word::Close),
        b"root" => Some(Word::Root),
        b"stage" => Some(Word::Stage),
        b"current" => Some(Word::Current),
        b"declared" => Some(Word::Declared),
        b"show" => Some(Word::Show),
        _ => None,
    }
}

// The kind of keeper that `text` names.
fn kind_in(text: &[u8]) -> Option<Kind>
    ensures { result ≡ kind_of text.now }
{
    match text {
        b"announcement" => Some(Kind::Announcement),
        b"counting" => Some(Kind::Counting),
        _ => None,
    }
}

// The call of a line that is one word.
fn bare(word: Word) -> Option<Call>
    ensures { result ≡ bare_of word }
{
    match word {
        Word::Current => Some(Call::Current),
        Word::Declared => Some(Call::Declared),
        Word::Show => Some(Call::Show),
        _ => None,
    }
}

// A keeper's making, from what stands behind its word.
fn keeper(rest: &[u8]) -> Option<Call>
    ensures { result ≡ keeper_of rest.now }
{
    let (name, numbers) = cut(rest, b' ')?;
    let kind = kind_in(name)?;
    let (programs, last) = leading_figures(numbers, b' ', u32::MAX)?;
    let last = figures(last, u32::MAX)?;
    Some(Call::Keeper {
        kind,
        programs,
        last,
    })
}

// A publish, from what stands behind its word.
fn publish(rest: &[u8]) -> Option<Call>
    ensures { result ≡ publish_of rest.now }
{
    let (program, operand) = leading_figures(rest, b' ', u32::MAX)?;
    let operand = figures(operand, u32::MAX)?;
    Some(Call::Publish { program, operand })
}

// The call of a line with operands, from its word and what stands behind it.
fn called(word: Word, rest: &[u8]) -> Option<Call>
    ensures { result ≡ called_of word rest.now }
{
    match word {
        Word::Keeper => keeper(rest),
        Word::Open => Some(Call::Open(figures(rest, u32::MAX)?)),
        Word::Publish => publish(rest),
        Word::Step => Some(Call::Step(figures(rest, u32::MAX)?)),
        Word::Close => Some(Call::Close(figures(rest, u32::MAX)?)),
        Word::Root => Some(Call::Root(figures(rest, u32::MAX)?)),
        Word::Stage => Some(Call::Stage(figures(rest, u32::MAX)?)),
        Word::Current | Word::Declared | Word::Show => None,
    }
}

// The call that `line` is, by its first word.
fn call_in(line: &[u8]) -> Option<Call>
    ensures { result ≡ call_of line.now }
{
    match cut(line, b' ') {
        Some((word, rest)) => called(word_in(word)?, rest),
        None => bare(word_in(line)?),
    }
}

// The call whose written form `line` is.
pub fn read(line: &[u8]) -> Option<Call>
    ensures { Reads line.now result }
{
    call_in(line)
}

#[cfg(test)]
mod tests {
    use super::*;
    use crate::text::number;

    #[test]
    fn calls(rt: HostRuntime) {
        let kind = Kind::Counting;
        assert_eq!(rt;
            read(b"keeper counting 2 100"),
            Some(Call::Keeper {
                kind,
                programs: 2,
                last: 100,
            })
        );
        assert_eq!(rt; read(b"open 0"), Some(Call::Open(0)));
        assert_eq!(rt;
            read(b"publish 1 42"),
            Some(Call::Publish {
                program: 1,
                operand: 42,
            })
        );
        assert_eq!(rt; read(b"step 10"), Some(Call::Step(10)));
        assert_eq!(rt; read(b"close 4294967295"), Some(Call::Close(4294967295)));
        assert_eq!(rt; read(b"root 7"), Some(Call::Root(7)));
        assert_eq!(rt; read(b"stage 7"), Some(Call::Stage(7)));
        assert_eq!(rt; read(b"current"), Some(Call::Current));
        assert_eq!(rt; read(b"declared"), Some(Call::Declared));
        assert_eq!(rt; read(b"show"), Some(Call::Show));
    }

    #[test]
    fn other_words(rt: HostRuntime) {
        assert_eq!(rt; read(b""), None);
        assert_eq!(rt; read(b"opens 0"), None);
        assert_eq!(rt; read(b"Open 0"), None);
        assert_eq!(rt; read(b"keeper announcements 2 100"), None);
        assert_eq!(rt; read(b"open"), None);
        assert_eq!(rt; read(b"show 0"), None);
        assert_eq!(rt; read(b"open 0 0"), None);
        assert_eq!(rt; read(b"publish 1"), None);
        assert_eq!(rt; read(b"sh\xc3\xb6w"), None);
    }

    #[test]
    fn other_blanks(rt: HostRuntime) {
        assert_eq!(rt; read(b" "), None);
        assert_eq!(rt; read(b" show"), None);
        assert_eq!(rt; read(b"show "), None);
        assert_eq!(rt; read(b"show\r"), None);
        assert_eq!(rt; read(b"open 0 "), None);
        assert_eq!(rt; read(b"open  0"), None);
        assert_eq!(rt; read(b"open\t0"), None);
        assert_eq!(rt; read(b"open 0\r"), None);
        assert_eq!(rt; read(b"publish 1  42"), None);
    }

    #[test]
    fn numbers(rt: HostRuntime) {
        assert_eq!(rt; read(b"open 4294967296"), None);
        assert_eq!(rt; read(b"open 99999999999999999999"), None);
        assert_eq!(rt; read(b"open 00"), None);
        assert_eq!(rt; read(b"open 07"), None);
        assert_eq!(rt; read(b"open +7"), None);
        assert_eq!(rt; read(b"open -7"), None);
        assert_eq!(rt; read(b"open 7x"), None);
        assert_eq!(rt; number(b"65535", 65535), Some(65535));
        assert_eq!(rt; number(b"65536", 65535), None);
    }
}
