// What the program prints for a log.
#![tactic(auto)]

mod text;

ghost use Rattle.std.specs.Prelude.{◌≡◌, ◌<◌, ◌≤◌, ◌↔◌, length, IsNone, IfSome};
ghost use Rattle.transcript.specs.Transcript.{max_text, size_of, printed};

use common::Word;
use model::limits::{KEYS, ROWS};
use model::{Mode, Value};
use text::Text;

// The longest log that is run.
pub const MAX_LOG: usize = 32768;

// A record has at least two bytes, so that each has a place for its answer.
const MAX_ANSWERS: usize = MAX_LOG / 2;

// Room for the rows of a scan, three numbers each: no key stands in two file groups.
const MAX_NUMBERS: usize = 3 * KEYS;

// The most digits of a word.
const MAX_DIGITS: usize = 20;

// Room for an answer, a byte, on its line.
const ANSWER_ROOM: usize = 3 + 1;

// Room for the line of the stop, a byte, with its two words and the offset.
const STOP_ROOM: usize = 5 + 3 + 4 + MAX_DIGITS + 1;

// Room for the line of a row.
const ROW_ROOM: usize = 3 * (MAX_DIGITS + 1);

// Room for any text.
pub const MAX_TEXT: usize = ANSWER_ROOM * MAX_ANSWERS + STOP_ROOM + ROW_ROOM * KEYS;

// Prints what a log's run on a fresh table of a mode gives at the start of a buffer, and gives the text's size; nothing where the buffer is shorter
// than MAX_TEXT.
pub fn transcribe(mode: Mode, log: &[u8], buffer: &mut [u8]) -> Option<usize>
    ensures prints { record { size = size_of result; buffer = buffer.new } ≡ printed mode log.now buffer.old }
    ensures refuses { IsNone result ↔ length buffer.old < max_text }
    ensures within { IfSome result (λ size. size ≤ length buffer.new) }
{
    if buffer.len() < MAX_TEXT {
        return None;
    }
    let mut text = Text::new(buffer);
    if log.len() > MAX_LOG {
        text.put_bytes(b"too long\n");
        return Some(text.size());
    }
    let mut present = [false; ROWS];
    let mut values: [Value; ROWS] = [0; ROWS];
    let fresh = table::fresh(mode, &mut present, &mut values);
    let mut answers = [0u8; MAX_ANSWERS];
    let ran = run::run_log(fresh, &mut present, &mut values, log, &mut answers);
    let t = ran.table;
    let mut rows: [Word; MAX_NUMBERS] = [0; MAX_NUMBERS];
    let scanned = snapshot::scan(t, &present, &values, t.last as u64, &mut rows);
    let count = scanned.unwrap_or(0);
    let answered = &answers[..ran.count];
    let listed = &rows[..3 * count];
    text.put_run(answered, u8::from(ran.stop), ran.offset, listed);
    Some(text.size())
}
