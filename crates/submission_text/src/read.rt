//! Reading the text of a submission, line by line.
ghost use Rattle.std.specs.Prelude.{◌≡◌, ℕ, ◌+◌, ◌≤◌, List, Result, Ok, IfOk, IfErr, OnOk};
ghost use Rattle.std.specs.Fn.{FnReturnsAt};
ghost use Rattle.std.specs.Result.{result_map_both as mapped_both};
ghost use Rattle.text.specs.declared.number.NumberFault.{NumberFault as Fault};
ghost use Rattle.text.specs.Lines.{line_of, natural_line_of, placed, Reads};
ghost use Rattle.submission_text.specs.Read.{pair_of, pairs_of, curved, head_of, file_of, read_of};
ghost use Rattle.submission_text.specs.Claims.{ReadsLines};
ghost use Rattle.submission_text.specs.Faults.{FirstFault, OneFault};

use crate::file::{Head, SubmissionFile};
use offers::curve::Curve;
use offers::pair::Pair;
use offers::submission::Submission;
use text::line::{LineFault, cut, line_with};
use text::number::{NumberFault, natural, signed};
use text::refusal::{Refusal, on_line};

// `price:kW`, with room for so many kW.
fn read_pair(s: &[u8], room: u32) -> Result<Pair, NumberFault>
    ensures within { IfOk result (λ p. p.kw ≤ room) }
    ensures value { result ≡ pair_of room s.now }
{
    let (price, kw) = cut(s, b':');
    let price = signed(price, -100_000, 100_000)?;
    let kw = natural(kw.ok_or(NumberFault::Form)?, 0, u64::from(room))?;
    Ok(Pair {
        price: price as i32,
        kw: kw as u32,
    })
}

// The lines that are left to read, and the number of the first of them.
#[derive(Clone, Copy)]
struct Lines<'a> {
    rest: &'a [u8],
    number: u32,
}

impl<'a> Lines<'a> {
    // What that function reads from the next line, after that key.
    fn next<T: Drop, F: Fn(&[u8]) -> Result<T, NumberFault>>(
        &mut self,
        key: &[u8],
        read: F,
    ) -> Result<T, Refusal>
        requires few { self.old.number ≤ 100 }
        requires callable { F.IsAlwaysCallable read }
        ensures next { OnOk result (self.new.number ≡ self.old.number + 1) }
        ensures told { IfOk result (λ x. (v : List ℕ) × FnReturnsAt F.Fn read v (Ok x)) }
        ensures value { (reader : List ℕ → Result T Fault) → Reads (FnReturnsAt F.Fn read) reader
            → mapped_both (λ x. (x, self.new.rest.now)) (λ e. e) result
            ≡ placed self.old.number (line_of reader key.now self.old.rest.now) }
    {
        let (x, rest) = on_line(self.number, line_with(self.rest, key, read))?;
        self.rest = rest;
        self.number += 1;
        Ok(x)
    }

    // The number on the next line, after that key.
    fn natural(&mut self, key: &[u8], low: u64, high: u64) -> Result<u64, Refusal>
        requires { self.old.number ≤ 100 }
        ensures next { OnOk result (self.new.number ≡ self.old.number + 1) }
        ensures within { IfOk result (λ n. (low ≤ n) × (n ≤ high)) }
        ensures value { mapped_both (λ n. (n, self.new.rest.now)) (λ e. e) result
            ≡ placed self.old.number (natural_line_of key.now low high self.old.rest.now) }
    {
        self.next(key, |value| natural(value, low, high))
    }
}

// The four leading figures.
fn read_head(lines: &mut Lines) -> Result<Head, Refusal>
    requires { lines.old.number ≡ 1 }
    ensures next { OnOk result (lines.new.number ≡ 5) }
    ensures value { mapped_both (λ h. (h, lines.new.rest.now)) (λ e. e) result
        ≡ head_of lines.old.rest.now }
{
    let facility = lines.natural(b"facility", 1, 12)?;
    let interval = lines.natural(b"interval", 1, 48)?;
    let ramp_up = lines.natural(b"rampup", 1, 1_000_000)?;
    let ramp_down = lines.natural(b"rampdown", 1, 1_000_000)?;
    Ok(Head {
        facility: facility as u32,
        interval: interval as u32,
        ramp_up: ramp_up as u32,
        ramp_down: ramp_down as u32,
    })
}

// The curve of so many pairs.
fn read_pairs(lines: &mut Lines, count: usize) -> Result<Curve, Refusal>
    requires first { lines.old.number ≡ 6 }
    requires few { count ≤ 8 }
    ensures next { OnOk result (lines.new.number ≡ 6 + count) }
    ensures value { mapped_both (λ c. (c, lines.new.rest.now)) (λ e. e) result
        ≡ curved (pairs_of count lines.old.rest.now) }
{
    let mut memory = [Pair { price: 0, kw: 0 }; 8];
    let pairs = &mut memory[..count];
    let mut room: u32 = 1_000_000;
    for slot in pairs.iter_mut() {
        let pair = lines.next(b"pair", |value| read_pair(value, room))?;
        *slot = pair;
        room -= pair.kw;
    }
    Ok(Curve::of(pairs).unwrap())
}

// The file of four leading figures and a curve.
fn with_curve(head: Head, curve: Curve) -> SubmissionFile
    ensures { result ≡ file_of head curve }
{
    let submission = Submission {
        ramp_up: head.ramp_up,
        ramp_down: head.ramp_down,
        curve,
    };
    SubmissionFile {
        facility: head.facility,
        interval: head.interval,
        submission,
    }
}

// The whole file, or the refusal of its first faulty line.
// Kept: apart from `read`, which draws its other clauses once from the value told here, and not at
// each of five exits.
fn read_lines(text: &[u8]) -> Result<SubmissionFile, Refusal>
    ensures { result ≡ read_of text.now }
{
    let mut lines = Lines {
        rest: text,
        number: 1,
    };
    let head = read_head(&mut lines)?;
    let count = lines.natural(b"pairs", 0, 8)?;
    let curve = read_pairs(&mut lines, count as usize)?;
    if !lines.rest.is_empty() {
        return Err(Refusal {
            line: lines.number,
            fault: LineFault::Extra,
        });
    }
    Ok(with_curve(head, curve))
}

/// What a text submits: it is the four leading figures, the number of pairs, that many pairs, and
/// nothing after them. Where it is refused, the first faulty line is told.
pub fn read(text: &[u8]) -> Result<SubmissionFile, Refusal>
    ensures value { result ≡ read_of text.now }
    ensures lines { ReadsLines text.now result }
    ensures faulty { IfErr result (λ r. FirstFault text.now r) }
    ensures one_fault { OneFault }
{
    read_lines(text)
}
