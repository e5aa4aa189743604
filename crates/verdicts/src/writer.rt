// A writer's own record: with no operation, and as a step leaves it.
ghost use Rattle.std.specs.Prelude.{◌≡◌};
ghost use Rattle.model.specs.State as state;
ghost use Rattle.model.specs.Rules as rules;

use model::Writer;

// A writer with no operation.
pub fn ready() -> Writer
    ensures { result ≡ state.ready }
{
    Writer {
        phase: 0,
        put: false,
        made: false,
        key: 0,
        group: 0,
        ts: 0,
        base: 0,
        value: 0,
    }
}

// A writer at its next phase, with a file group and a base.
pub fn moved(x: Writer, phase: u8, group: u8, base: u8) -> Writer
    ensures { result ≡ rules.moved x phase group base }
{
    Writer {
        phase,
        group,
        base,
        ..x
    }
}

// A writer whose operation has made the index entry of its key, or has not.
pub fn with_made(x: Writer, made: bool) -> Writer
    ensures { result ≡ rules.with_made x made }
{
    Writer { made, ..x }
}
