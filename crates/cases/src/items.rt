// The items of an input, read one after the other.
ghost use Rattle.std.specs.Prelude.{length};
ghost use Rattle.std.specs.Iterator.{at_most};

use common::Word;
use leb128::Decoded;

// What an item asks for: a fresh table, a call on the table, or calls that are tried on it.
#[derive(Clone, Copy)]
pub enum Kind {
    Optimistic,
    Pessimistic,
    Run,
    RunBySteps,
    Clean,
    Show,
    ChooseEach,
    Choose,
    NotedNumbers,
    Set,
    TryLog,
    TryClean,
    TryRead,
    TryScan,
}

// The number of no kind.
#[derive(Clone, Copy)]
pub struct NoKind;

impl TryFrom<u8> for Kind {
    type Error = NoKind;

    fn try_from(n: u8) -> Result<Kind, NoKind> {
        match n {
            0 => Ok(Kind::Optimistic),
            1 => Ok(Kind::Pessimistic),
            2 => Ok(Kind::Run),
            3 => Ok(Kind::RunBySteps),
            4 => Ok(Kind::Clean),
            5 => Ok(Kind::Show),
            6 => Ok(Kind::ChooseEach),
            7 => Ok(Kind::Choose),
            8 => Ok(Kind::NotedNumbers),
            9 => Ok(Kind::Set),
            10 => Ok(Kind::TryLog),
            11 => Ok(Kind::TryClean),
            12 => Ok(Kind::TryRead),
            13 => Ok(Kind::TryScan),
            _ => Err(NoKind),
        }
    }
}

impl Kind {
    // Do bytes stand behind its number?
    fn has_bytes(self) -> bool {
        matches!(
            self,
            Kind::Run | Kind::RunBySteps | Kind::Set | Kind::TryLog | Kind::TryRead | Kind::TryScan
        )
    }
}

// An item: its kind, if there is one of its number, its number, and its bytes, none for most kinds.
#[derive(Clone, Copy)]
pub struct Item<'a> {
    pub kind: Option<Kind>,
    pub number: Word,
    pub bytes: &'a [u8],
}

// What is left of an input.
#[derive(Clone, Copy)]
pub struct Items<'a>(pub &'a [u8]);

impl<'a> Iterator for Items<'a> {
    type Item = Item<'a>;

    ghost remaining = { λ s. at_most (length s.0.now) };

    // An item that is cut short ends the input.
    fn next(&mut self) -> Option<Item<'a>> {
        let (&kind, rest) = self.0.split_first()?;
        let kind = Kind::try_from(kind).ok();
        let Decoded {
            value: number,
            next,
        } = leb128::decode(rest, 0).ok()?;
        let rest = rest.get(next..)?;
        let size = if kind.is_some_and(Kind::has_bytes) {
            number as usize
        } else {
            0
        };
        let (bytes, rest) = rest.split_at_checked(size)?;
        self.0 = rest;
        Some(Item {
            kind,
            number,
            bytes,
        })
    }
}
