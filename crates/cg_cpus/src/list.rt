//! Lists of CPU numbers, as `0-4,6,8-10`.
ghost use Rattle.std.specs.Prelude.{◌≡◌, ◌∷◌, ◌++◌, ◌+◌, ◌*◌, ◌<◌, ◌≤◌, ◌⊎◌, IsTrue, IfOk, IfErr, IfNone, IfSome, List, OnOk, OnErr, Some, ℕ, length, reverse, take};
ghost use Rattle.std.specs.Result.{IsErrOf};
ghost use Rattle.cg_maps.specs.FiniteSet.{FiniteSet, has};
ghost use Rattle.cg_name.specs.declared.refusal.Refusal.TheVariants.{Syntax};
ghost use Rattle.cg_cpus.specs.Separated.{separated};
ghost use Rattle.cg_cpus.specs.CpuList.{cpus_text, IsCpuNumber, run_text, SpellsCpus, SpellsRange, SpellsTrimmed};
ghost use Rattle.cg_digits.specs.WhiteSpace.{without_leading_white_space, without_trailing_white_space};

use crate::cpu_set::CpuSet;
use cg_digits::{read_digits, trim};
use cg_name::Refusal;
use itoa::Buffer;
use std::alloc::AllocError;
use std::fmt;

// A number of decimal digits alone, below 1,024.
fn read_number(digits: &str) -> Result<u16, Refusal>
    ensures value { IfOk result (λ n. IsCpuNumber digits.now n) }
    ensures syntax { OnErr result ((n : ℕ) → IsCpuNumber digits.now n → ⊥) }
    ensures refusals { IfErr result (λ e. e ≡ Syntax) }
{
    let number = read_digits(digits)?;
    if number < u32::from(CpuSet::LIMIT) {
        Ok(number as u16)
    } else {
        Err(Refusal::Syntax)
    }
}

// The first and the last number of an element.
fn read_range(element: &str) -> Result<(u16, u16), Refusal>
    ensures value { IfOk result (λ r. SpellsRange element.now r.0 r.1) }
    ensures order { IfOk result (λ r. (r.0 ≤ r.1) × (r.1 < 1024)) }
    ensures syntax { OnErr result ((first : ℕ) (last : ℕ) → SpellsRange element.now first last → ⊥) }
    ensures refusals { IfErr result (λ e. e ≡ Syntax) }
{
    let Some((low, high)) = element.split_once('-') else {
        let number = read_number(element)?;
        return Ok((number, number));
    };
    let first = read_number(low)?;
    let last = read_number(high)?;
    if first <= last {
        Ok((first, last))
    } else {
        Err(Refusal::Syntax)
    }
}

// The set of a list with no white space around it.
fn read_elements(text: &str) -> Result<CpuSet, Refusal>
    ensures value { IfOk result (λ s. SpellsTrimmed text.now s) }
    ensures syntax { OnErr result ((s : FiniteSet) → SpellsTrimmed text.now s → ⊥) }
    ensures refusals { IfErr result (λ e. e ≡ Syntax) }
{
    let mut set = CpuSet::empty();
    if text.is_empty() {
        return Ok(set);
    }
    for element in text.split(',') {
        let (first, last) = read_range(element)?;
        set.insert_range(first, last);
    }
    Ok(set)
}

// The set that a list spells.
pub(crate) fn read(text: &str) -> Result<CpuSet, Refusal>
    ensures value { IfOk result (λ s. SpellsCpus text.now s) }
    ensures syntax { IsErrOf result Syntax → (s : FiniteSet) → SpellsCpus text.now s → ⊥ }
    ensures refusals { IfErr result (λ e. e ≡ Syntax) }
    ensures below { IfOk result (λ s. (n : ℕ) → IsTrue (has s n) → n < 1024) }
{
    if let Some((first, last)) = plain_range(text.as_bytes()) {
        let mut set = CpuSet::empty();
        set.insert_range(first, last);
        return Ok(set);
    }
    read_elements(trim(text))
}

// The first and the last number of a list that is one number or one range, of one to three digits each: most are, and these
// are read without a search. `None` for any other text, of whatever it spells.
fn plain_range(text: &[u8]) -> Option<(u16, u16)>
    ensures { IfSome result (λ r. SpellsRange text.now r.0 r.1) }
{
    let (first, rest) = few_digits(text)?;
    match rest {
        [] => Some((first, first)),
        [b'-', others @ ..] => match few_digits(others)? {
            (last, []) if first <= last => Some((first, last)),
            _ => None,
        },
        _ => None,
    }
}

// The number of the digits with which the text begins, three of them at most, and what stands behind these; `None` where it
// begins with none.
fn few_digits(text: &[u8]) -> Option<(u16, &[u8])>
    ensures { IfSome result (λ cut. (digits : List ℕ) × (text.now ≡ digits ++ cut.1.now) × IsCpuNumber digits cut.0) }
{
    let (number, rest) = first_digit(text)?;
    let (number, rest) = with_digit(number, rest);
    Some(with_digit(number, rest))
}

// The number with one digit more, and what stands behind that; both as they were where the text begins with none.
fn with_digit(number: u16, text: &[u8]) -> (u16, &[u8])
    requires { number < 100 }
    ensures digit { ((text.now ≡ result.1.now) × (result.0 ≡ number)) ⊎ ((digit : ℕ) × (digit < 10) × (text.now ≡ (48 + digit) ∷ result.1.now) × (result.0 ≡ number * 10 + digit)) }
    ensures small { result.0 ≤ number * 10 + 9 }
{
    match first_digit(text) {
        Some((digit, rest)) => (number * 10 + digit, rest),
        None => (number, text),
    }
}

// The digit with which the text begins, as a number, and what stands behind it.
fn first_digit(text: &[u8]) -> Option<(u16, &[u8])>
    ensures { IfSome result (λ cut. (cut.0 < 10) × (text.now ≡ (48 + cut.0) ∷ cut.1.now)) }
{
    match text {
        [byte @ b'0'..=b'9', rest @ ..] => Some((u16::from(*byte - b'0'), rest)),
        _ => None,
    }
}

// Appends a run, with a comma before it where it stands behind another; a refusal leaves what stood there at the front.
fn append_run(behind: bool, first: u16, last: u16, out: &mut Vec<u8>) -> Result<(), AllocError>
    ensures ok { OnOk result (out.new.items ≡ out.old.items ++ separated 44 behind (run_text (first, last))) }
    ensures kept { OnErr result (take (length out.old.items) out.new.items ≡ out.old.items) }
{
    let mut buffer = Buffer::new();
    if behind {
        out.push(b',')?;
    }
    out.extend_from_slice(buffer.format(first).as_bytes())?;
    if first != last {
        out.push(b'-')?;
        out.extend_from_slice(buffer.format(last).as_bytes())?;
    }
    Ok(())
}

// Appends the set's runs; a refusal leaves what stood there at the front.
pub(crate) fn append_runs(set: &CpuSet, out: &mut Vec<u8>) -> Result<(), AllocError>
    requires { (n : ℕ) → IsTrue (has set.now n) → n < 1024 }
    ensures ok { OnOk result (out.new.items ≡ out.old.items ++ cpus_text set.now) }
    ensures kept { OnErr result (take (length out.old.items) out.new.items ≡ out.old.items) }
{
    let mut next = 0;
    while let Some((first, last)) = set.run_from(next) {
        append_run(next > 0, first, last, out)?;
        next = last + 1;
    }
    Ok(())
}

/// Shows the set's list, as `0-4,6`.
impl fmt::Display for CpuSet {
    ghost output = { λ s. Some (cpus_text s) };

    fn fmt<W: fmt::Write>(&self, f: &mut fmt::Formatter<W>) -> fmt::Result {
        // A set of CPUs tells of its numbers when it is asked for one.
        let _ = self.contains(0);
        let mut next = 0;
        while let Some((first, last)) = self.run_from(next) {
            f.write(Run {
                behind: next > 0,
                first,
                last,
            })?;
            next = last + 1;
        }
        Ok(())
    }
}

// A run, as it stands in a list.
#[derive(Clone, Copy)]
struct Run {
    // Whether it stands behind another.
    behind: bool,
    first: u16,
    last: u16,
}

impl fmt::Display for Run {
    ghost output = { λ r. Some (separated 44 r.behind (run_text (r.first, r.last))) };

    fn fmt<W: fmt::Write>(&self, f: &mut fmt::Formatter<W>) -> fmt::Result {
        let first = self.first;
        let last = self.last;
        match (self.behind, first == last) {
            (false, true) => write!(f, "{first}"),
            (false, false) => write!(f, "{first}-{last}"),
            (true, true) => write!(f, ",{first}"),
            (true, false) => write!(f, ",{first}-{last}"),
        }
    }
}
