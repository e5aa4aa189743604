// One reader, asked five times.
ghost use Rattle.std.specs.Prelude.{◌≡◌, map};
ghost use Rattle.std.specs.List.{range_with_len};
ghost use Rattle.steplog.specs.Reader.{reader_place, reader_finds};

use steplog::{Reader, Record, Stop};

// What five calls of `next_record` gave, and the reader's place after them.
#[derive(Clone, Copy)]
pub struct Five {
    pub records: [Result<Record, Stop>; 5],
    pub place: usize,
}

// Reads a log from its start through a reader that is asked five times.
pub fn read_five(log: &[u8]) -> Five
    ensures { result ≡ record {
      records = map (λ n. reader_finds log.now 0 n) (range_with_len 0 5);
      place = reader_place log.now 0 5;
    } }
{
    let mut reader = Reader::open(log, 0);
    let first = reader.next_record();
    let second = reader.next_record();
    let third = reader.next_record();
    let fourth = reader.next_record();
    let fifth = reader.next_record();
    Five {
        records: [first, second, third, fourth, fifth],
        place: reader.at,
    }
}
