//! Passes over the words of a domain, and a fill.

ghost use Rattle.std.specs.Prelude.{length};
ghost use Rattle.bitvec.specs.BitSpan.{span_of};
ghost use Rattle.bitvec.specs.Span.{Fits};

use crate::timer::{Job, Mode, Name, tell, time};
use crate::words::{bit, words};
use bitvec::domain::Domain;
use bitvec::index::BitIdx;
use bitvec::order::Lsb0;
use bitvec::ptr::span::BitSpan;
use std::io;

// A pass over all words of a domain, and the exclusive or of all of them in all passes.
#[derive(Drop)]
struct Pass<'a> {
    span: BitSpan<u64, Lsb0>,
    words: &'a [u64],
    sum: u64,
}

impl Job for Pass<'_> {
    ghost ready = { λ s. Fits 64 (span_of s.span) (length s.words.now) };

    #[inline(never)]
    fn go(&mut self) {
        let mut sum = 0;
        for word in self.span.domain(self.words) {
            sum ^= word;
        }
        self.sum ^= sum;
    }
}

// The same over its whole words alone, as a slice.
#[derive(Drop)]
struct PassBody<'a> {
    span: BitSpan<u64, Lsb0>,
    words: &'a [u64],
    sum: u64,
}

impl Job for PassBody<'_> {
    ghost ready = { λ s. Fits 64 (span_of s.span) (length s.words.now) };

    #[inline(never)]
    fn go(&mut self) {
        let mut sum = 0;
        if let Domain::Region { body, .. } = self.span.domain(self.words) {
            for word in body {
                sum ^= *word;
            }
        }
        self.sum ^= sum;
    }
}

// The same by the call that hands each item on.
#[derive(Drop)]
struct PassEach<'a> {
    span: BitSpan<u64, Lsb0>,
    words: &'a [u64],
    sum: u64,
}

impl Job for PassEach<'_> {
    ghost ready = { λ s. Fits 64 (span_of s.span) (length s.words.now) };

    #[inline(never)]
    fn go(&mut self) {
        let mut sum = 0;
        self.span.domain(self.words).each(|word| sum ^= word);
        self.sum ^= sum;
    }
}

// All bits of a span made one.
#[derive(Drop)]
struct Fill<'a> {
    span: BitSpan<u64, Lsb0>,
    memory: &'a mut [u64],
}

impl Job for Fill<'_> {
    ghost ready = { λ s. Fits 64 (span_of s.span) (length s.memory.now) };

    #[inline(never)]
    fn go(&mut self) {
        self.span.fill(self.memory, true);
    }
}

// The exclusive or of the words behind the first and before the last.
fn sum_inside(words: &[u64]) -> u64 {
    let mut sum = 0;
    if let [_, body @ .., _] = words {
        for word in body {
            sum ^= *word;
        }
    }
    sum
}

// The first word without its lowest three digits, and the last without its highest four.
fn sum_of_ends(words: &[u64]) -> u64 {
    match words {
        [first, .., last] => (*first & !7) ^ (*last & (u64::MAX >> 4)),
        _ => 0,
    }
}

// Whether all bits but the first three and the last four are one, and these as before: bit by bit.
fn is_filled(before: &[u64], after: &[u64]) -> bool {
    for place in 0..512 * 64 {
        let inside = 3 <= place && place < 512 * 64 - 4;
        if bit::<u64, Lsb0>(after, place) != (inside || bit::<u64, Lsb0>(before, place)) {
            return false;
        }
    }
    true
}

fn passes(rt: HostRuntime, mode: Mode, span: BitSpan<u64, Lsb0>) -> io::Result<()> {
    let words = words(rt, mode.words())?;
    if !span.fits(words.len()) {
        return Ok(());
    }
    let units = mode.units();
    let group = "domain-";
    let whole = Name {
        group,
        kind: "pass",
        unit: "word",
    };
    let inside = Name {
        group,
        kind: "body",
        unit: "word",
    };
    let handed = Name {
        group,
        kind: "each",
        unit: "word",
    };
    let words = words.as_slice();
    let sum = 0;
    let mut pass = Pass { span, words, sum };
    let mut body = PassBody { span, words, sum };
    let mut each = PassEach { span, words, sum };
    if mode != Mode::Compare {
        time(rt, whole, units, &mut pass)?;
        time(rt, inside, units, &mut body)?;
        return time(rt, handed, units, &mut each);
    }
    pass.go();
    body.go();
    each.go();
    let all = sum_inside(words) ^ sum_of_ends(words);
    tell(rt, whole, pass.sum == all)?;
    tell(rt, inside, body.sum == sum_inside(words))?;
    tell(rt, handed, each.sum == all)
}

fn fill_all(rt: HostRuntime, mode: Mode, span: BitSpan<u64, Lsb0>) -> io::Result<()> {
    let before = words(rt, mode.words())?;
    let mut memory = words(rt, mode.words())?;
    if !span.fits(memory.len()) {
        return Ok(());
    }
    let mut job = Fill {
        span,
        memory: &mut memory,
    };
    let name = Name {
        group: "fill",
        kind: "",
        unit: "word",
    };
    if mode != Mode::Compare {
        return time(rt, name, mode.units(), &mut job);
    }
    job.go();
    tell(rt, name, is_filled(&before, &memory))
}

/// The passes and the fill, of all bits of a memory but the first three and the last four.
pub fn domains(rt: HostRuntime, mode: Mode) -> io::Result<()> {
    let head = BitIdx::new_unchecked(3);
    let Ok(span) = BitSpan::new(0, head, mode.words() * 64 - 7) else {
        return Ok(());
    };
    passes(rt, mode, span)?;
    fill_all(rt, mode, span)
}
