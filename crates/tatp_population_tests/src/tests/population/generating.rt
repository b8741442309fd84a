//! Rows drawn from words that go up by a step, and the words of a generator.
ghost use Rattle.std.specs.Prelude.{ℕ, ◌+◌, ◌^◌, ◌%◌};
ghost use Rattle.rand_core.specs.Steps.{stream_of, steps_u64_low};

use rand_core::utils::NextWord;
use rand_core::{Rng, utils};
use rand_pcg::Pcg64;
use std::alloc::{AllocError, Global};
use std::test::Fail;
use tatp_population::generate;
use tatp_tables::{Row, Rows};
use tatp_texts::row_text;

/// What words that are all 0 draw.
const ALL_ZERO: &str = "\
S 1 000000000000001 0 0 0 0 0 0 0 0 0 0 0 0 0 0 0 0 0 0 0 0 0 0 0 0 0 0 0 0 0 0 1 1
A 1 1 0 0 AAA AAAAA
F 1 1 1 0 0 AAAAA
";

/// What words that are all 3 draw.
const ALL_THREE: &str = "\
S 1 000000000000001 1 1 1 1 1 1 1 1 1 1 3 3 3 3 3 3 3 3 3 3 3 3 3 3 3 3 3 3 3 3 4 4
A 1 4 3 3 DDD DDDDD
A 1 1 3 3 DDD DDDDD
A 1 3 3 3 DDD DDDDD
A 1 2 3 3 DDD DDDDD
F 1 4 1 3 3 DDDDD
F 1 1 1 3 3 DDDDD
F 1 3 1 3 3 DDDDD
F 1 2 1 3 3 DDDDD
C 1 4 0 4 000000000000003
C 1 4 16 20 000000000000003
C 1 4 8 12 000000000000003
C 1 1 0 4 000000000000003
C 1 1 16 20 000000000000003
C 1 1 8 12 000000000000003
C 1 3 0 4 000000000000003
C 1 3 16 20 000000000000003
C 1 3 8 12 000000000000003
C 1 2 0 4 000000000000003
C 1 2 16 20 000000000000003
C 1 2 8 12 000000000000003
";

/// What the words 5, 12, 19 and so on draw.
const UP_BY_SEVEN: &str = "\
S 1 000000000000001 1 0 1 0 1 0 1 0 1 0 11 2 9 0 7 14 5 12 3 10 \
145 152 159 166 173 180 187 194 201 208 216 223
A 1 1 243 250 XEL SZGNU
A 1 3 64 71 WDK RYFMT
F 1 2 1 155 162 JQXEL
F 1 4 1 225 232 BIPWD
F 1 3 0 81 88 JQXEL
C 1 4 0 1 000000000000551
C 1 4 8 14 000000000000572
C 1 3 8 9 000000000000663
C 1 3 0 6 000000000000684
";

/// Words that go up by a step, and how many were taken, modulo 2^64.
#[derive(Drop)]
struct Steps {
    next: u64,
    step: u64,
    taken: u64,
}

impl Steps {
    fn new(next: u64, step: u64) -> Steps {
        Steps {
            next,
            step,
            taken: 0,
        }
    }
}

impl NextWord<u64> for Steps {
    ghost step = { λ s. (
      s.next,
      record s { next = (s.next + s.step) % 2 ^ 64; taken = (s.taken + 1) % 2 ^ 64 },
    ) };

    fn next_word(&mut self) -> u64 {
        let word = self.next;
        self.next = word.wrapping_add(self.step);
        self.taken = self.taken.wrapping_add(1);
        word
    }
}

impl Rng for Steps {
    ghost stream = { stream_of (steps_u64_low (λ s. (
      s.next,
      record s { next = (s.next + s.step) % 2 ^ 64; taken = (s.taken + 1) % 2 ^ 64 },
    ))) };

    fn next_u32(&mut self) -> u32 {
        (self.next_word() % (1 << 32)) as u32
    }

    fn next_u64(&mut self) -> u64 {
        self.next_word()
    }

    fn fill_bytes(&mut self, dst: &mut [u8]) {
        utils::fill_bytes_via_u64(self, dst)
    }
}

/// A row and a line feed.
fn push_line(alloc: Global, text: &mut String, row: Row) -> Result<(), AllocError> {
    text.push_str(row_text(alloc, &row)?.as_str())?;
    text.push('\n')
}

/// The rows as text, table by table.
fn text_of(alloc: Global, rows: &Rows) -> Result<String, AllocError> {
    let mut text = String::new(alloc);
    for columns in rows.subscribers.as_slice() {
        push_line(alloc, &mut text, Row::S(*columns))?;
    }
    for columns in rows.accesses.as_slice() {
        push_line(alloc, &mut text, Row::A(*columns))?;
    }
    for columns in rows.facilities.as_slice() {
        push_line(alloc, &mut text, Row::F(*columns))?;
    }
    for columns in rows.forwardings.as_slice() {
        push_line(alloc, &mut text, Row::C(*columns))?;
    }
    Ok(text)
}

#[test]
fn rows_of_words(rt: HostRuntime) -> Result<(), Fail> {
    for (first, step, taken, wanted) in [
        (0, 0, 55, ALL_ZERO),
        (3, 0, 154, ALL_THREE),
        (5, 7, 98, UP_BY_SEVEN),
    ] {
        let mut words = Steps::new(first, step);
        let rows = generate(rt.alloc(), 1, &mut words)?;
        assert_eq!(rt; text_of(rt.alloc(), &rows)?.as_str(), wanted);
        assert_eq!(rt; words.taken, taken);
    }
    Ok(())
}

#[test]
fn words_of_the_generator(rt: HostRuntime) {
    let mut words = Pcg64::new(42, 54);
    for word in [
        0x86b1_da1d_7206_2b68,
        0x1304_aa46_c985_3d39,
        0xa367_0e9e_0dd5_0358,
        0xf909_0e52_9a7d_ae00,
        0xc85b_9fd8_3799_6f2c,
        0x6061_21f8_e391_9196,
    ] {
        assert_eq!(rt; words.next_u64(), word);
    }
}
