// Text into a buffer, each part behind the last.
// Printed by hand: `write!` promises its text on Ok alone and never an Ok, and what `printed` has is there wherever there is room.
ghost use Rattle.std.specs.Prelude.{◌≡◌, ◌+◌, ◌/◌, ◌≤◌, ◌∷◌, [], length};
ghost use Rattle.model.specs.Snapshot.{row};
ghost use Rattle.transcript.specs.Text.{decimal, field, answer_lines, stop_line, row_line, run_room};
ghost use Rattle.transcript.specs.Inner.{HasRoom, Puts, number_lines, run_text};

use common::Word;

// A buffer, and the place behind the text in it.
#[derive(Drop)]
pub struct Text<'b> {
    buffer: &'b mut [u8],
    at: usize,
}

impl<'b> Text<'b> {
    // No text yet.
    pub fn new(buffer: &'b mut [u8]) -> Text<'b>
        ensures same_reference { result.buffer.ghost_name ≡ buffer.entry.ghost_name }
        ensures same_bytes { result.buffer.now ≡ buffer.old }
        ensures at_the_start { result.at ≡ 0 }
    {
        Text { buffer, at: 0 }
    }

    // The size of the text.
    pub fn size(&self) -> usize
        ensures { result ≡ self.now.at }
    {
        self.at
    }

    // A byte as it is.
    fn put_byte(&mut self, byte: u8)
        requires { HasRoom self.old (byte ∷ []) }
        ensures { Puts self (byte ∷ []) }
    {
        self.buffer[self.at] = byte;
        self.at += 1;
    }

    // Bytes as they are.
    pub fn put_bytes(&mut self, bytes: &[u8])
        requires { HasRoom self.old bytes.now }
        ensures { Puts self bytes.now }
    {
        let next = self.at + bytes.len();
        self.buffer[self.at..next].copy_from_slice(bytes);
        self.at = next;
    }

    // A number in decimal: the digits before its last, if there are any, and its last.
    fn put_decimal(&mut self, number: Word)
        requires { HasRoom self.old (decimal number) }
        ensures { Puts self (decimal number) }
    {
        if number >= 10 {
            self.put_decimal(number / 10);
        }
        self.put_byte(b'0' + (number % 10) as u8);
    }

    // A number in decimal, and the byte behind it.
    fn put_field(&mut self, number: Word, end: u8)
        requires { HasRoom self.old (field number end) }
        ensures { Puts self (field number end) }
    {
        self.put_decimal(number);
        self.put_byte(end);
    }

    // Answers, each on its own line.
    fn put_answers(&mut self, answers: &[u8])
        requires { HasRoom self.old (answer_lines answers.now) }
        ensures { Puts self (answer_lines answers.now) }
    {
        for &answer in answers {
            self.put_field(answer as Word, b'\n');
        }
    }

    // The line `stop N at OFFSET`.
    fn put_stop(&mut self, stop: u8, offset: usize)
        requires { HasRoom self.old (stop_line stop offset) }
        ensures { Puts self (stop_line stop offset) }
    {
        self.put_bytes(b"stop ");
        self.put_decimal(stop as Word);
        self.put_bytes(b" at ");
        self.put_field(offset as Word, b'\n');
    }

    // The line `key value group` of a row.
    fn put_row(&mut self, key: Word, value: Word, group: Word)
        requires { HasRoom self.old (row_line (row key value group)) }
        ensures { Puts self (row_line (row key value group)) }
    {
        self.put_field(key, b' ');
        self.put_field(value, b' ');
        self.put_field(group, b'\n');
    }

    // The rows of some numbers, three a row, each on its own line.
    fn put_rows(&mut self, numbers: &[Word])
        requires { HasRoom self.old (number_lines numbers.now (length numbers.now / 3)) }
        ensures { Puts self (number_lines numbers.now (length numbers.now / 3)) }
    {
        let (rows, _) = numbers.as_chunks::<3>();
        for &[key, value, group] in rows {
            self.put_row(key, value, group);
        }
    }

    // The text of a run: its answers, its stop, and the rows of some numbers.
    pub fn put_run(&mut self, answers: &[u8], stop: u8, offset: usize, numbers: &[Word])
        requires { self.old.at + run_room (length answers.now) (length numbers.now / 3) ≤ length self.old.buffer.now }
        ensures { Puts self (run_text answers.now stop offset numbers.now (length numbers.now / 3)) }
    {
        self.put_answers(answers);
        self.put_stop(stop, offset);
        self.put_rows(numbers);
    }
}
