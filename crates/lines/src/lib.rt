// A line of calls (oracle/README.md): decimal numbers with one space between, and lists with runs. A `Line` is what is left of one, and
// each call reads from its front. Where something else stands there than was asked for, the answer is Broken, and what is left of the line
// then means nothing.
#![tactic(auto)]

ghost use Rattle.std.specs.Prelude.{◌≡◌, ◌↔◌, ◌<◌, ◌≤◌, IsTrue, IfOk, Ok, length, [], ◌∷◌, if◌then◌else◌, pos, neg_ℤ, true};
ghost use Rattle.lines.specs.Numbers.{IsFirst, IsNumber};

use std::str::{self, FromStr};

// Something else stands in a line than was asked for.
#[derive(Clone, Copy, PartialEq, Eq, Debug)]
pub struct Broken;

// What is left of a line.
#[derive(Clone, Copy)]
pub struct Line<'a> {
    pub rest: &'a [u8],
}

// So many elements with this value.
#[derive(Clone, Copy)]
struct Run {
    count: usize,
    value: i64,
}

// A number with its sign apart.
#[derive(Clone, Copy)]
struct Numeral {
    minus: bool,
    magnitude: u64,
}

impl Numeral {
    // The number, which 128 bits hold.
    fn wide(self) -> i128
        ensures { result ≡ (if self.minus then neg_ℤ (pos self.magnitude) else pos self.magnitude) }
    {
        let magnitude = i128::from(self.magnitude);
        if self.minus { -magnitude } else { magnitude }
    }

    // The number, if T holds it. A type without a sign takes no minus, before 0 neither.
    fn value<T: TryFrom<i128> + Drop>(self) -> Result<T, Broken>
    where
        T::Error: Drop,
        ensures { IfOk result (λ value. T.try_from_gives (if self.minus then neg_ℤ (pos self.magnitude) else pos self.magnitude) (Ok value)) }
    {
        if self.minus && T::try_from(-1).is_err() {
            return Err(Broken);
        }
        T::try_from(self.wide()).map_err(|_| Broken)
    }
}

// All digits at the front as a number, and how many they are: at least one, and 64 bits hold the number.
fn read_digits(text: &[u8]) -> Result<(u64, usize), Broken>
    ensures { IfOk result (λ r. r.1 ≤ length text.now) }
{
    let mut value = 0u64;
    let mut count = 0;
    while count < text.len() && text[count].is_ascii_digit() {
        let d = u64::from(text[count] - b'0');
        if (18446744073709551615 - d) / 10 < value {
            return Err(Broken);
        }
        value = value * 10 + d;
        count += 1;
    }
    if count == 0 {
        return Err(Broken);
    }
    Ok((value, count))
}

// How long a number's text at the front is: digits, behind a minus sign or not. There may be no digit.
fn numeral_length(text: &[u8]) -> usize
    ensures { result ≤ length text.now }
{
    let unsigned = text.strip_prefix(b"-").unwrap_or(text);
    let behind = unsigned.iter().position(|b| !b.is_ascii_digit());
    text.len() - unsigned.len() + behind.unwrap_or(unsigned.len())
}

// The number that a text is, as T reads it.
fn number_of<T: FromStr>(text: &[u8]) -> Result<T, Broken>
where
    T::Err: Drop,
    ensures { IfOk result (λ value. T.from_str_gives text.now (Ok value)) }
{
    match str::from_utf8(text) {
        Ok(text) => text.parse::<T>().map_err(|_| Broken),
        Err(_) => Err(Broken),
    }
}

impl<'a> Line<'a> {
    pub fn new(text: &'a [u8]) -> Self
        ensures { result.rest.now ≡ text.now }
    {
        Line { rest: text }
    }

    // Whether all of it was read.
    pub fn is_empty(&self) -> bool
        ensures { IsTrue result ↔ (self.now.rest.now ≡ []) }
    {
        self.rest.is_empty()
    }

    // The byte at the front is this one.
    fn skip(&mut self, byte: u8) -> Result<(), Broken>
        ensures { IfOk result (λ _. self.old.rest.now ≡ byte ∷ self.new.rest.now) }
    {
        self.rest = self.rest.strip_prefix(&[byte]).ok_or(Broken)?;
        Ok(())
    }

    // The sign and the digits at the front.
    fn numeral(&mut self) -> Result<Numeral, Broken> {
        let minus = self.skip(b'-').is_ok();
        let (magnitude, count) = read_digits(self.rest)?;
        self.rest = &self.rest[count..];
        Ok(Numeral { minus, magnitude })
    }

    // The whole number with which the line begins, if its digits fit in 64 bits and T holds it.
    pub fn first_integer<T: TryFrom<i128> + Drop>(&mut self) -> Result<T, Broken>
    where
        T::Error: Drop,
    {
        self.numeral()?.value()
    }

    // The same behind a space.
    pub fn integer<T: TryFrom<i128> + Drop>(&mut self) -> Result<T, Broken>
    where
        T::Error: Drop,
    {
        self.skip(b' ')?;
        self.first_integer()
    }

    // The number with which the line begins, however long, as T reads its text. `first_integer` takes one pass where this takes three.
    pub fn first<T: FromStr>(&mut self) -> Result<T, Broken>
    where
        T::Err: Drop,
        ensures { IfOk result (λ value. IsFirst T.from_str_gives self.old.rest.now self.new.rest.now value) }
    {
        let (text, behind) = self.rest.split_at(numeral_length(self.rest));
        self.rest = behind;
        number_of(text)
    }

    // The same behind a space.
    pub fn number<T: FromStr>(&mut self) -> Result<T, Broken>
    where
        T::Err: Drop,
        ensures { IfOk result (λ value. IsNumber T.from_str_gives self.old.rest.now self.new.rest.now value) }
    {
        self.skip(b' ')?;
        self.first()
    }

    // A 0 or a 1 as a flag.
    pub fn flag(&mut self) -> Result<bool, Broken> {
        match self.integer::<u64>()? {
            0 => Ok(false),
            1 => Ok(true),
            _ => Err(Broken),
        }
    }

    // An element of a list, or a run COUNT*VALUE.
    fn run(&mut self) -> Result<Run, Broken>
        ensures { IfOk result (λ run. 0 < run.count) }
    {
        self.skip(b' ')?;
        let numeral = self.numeral()?;
        if self.skip(b'*').is_err() {
            return Ok(Run {
                count: 1,
                value: numeral.value()?,
            });
        }
        let count: usize = numeral.value()?;
        if count == 0 {
            return Err(Broken);
        }
        Ok(Run {
            count,
            value: self.first_integer()?,
        })
    }

    // A list, to the front of `into` if there is room and T holds its elements; how many they are.
    pub fn list<T: Copy + TryFrom<i64>>(&mut self, into: &mut [T]) -> Result<usize, Broken>
    where
        T::Error: Drop,
        ensures { IfOk result (λ count. count ≤ length into.new) }
    {
        self.list_by(into, |x| T::try_from(x).map_err(|_| Broken))
    }

    // The same, by what an element is made into.
    pub fn list_by<T: Copy, F: Fn(i64) -> Result<T, Broken>>(
        &mut self,
        into: &mut [T],
        make: F,
    ) -> Result<usize, Broken>
        requires { F.IsAlwaysCallable make }
        ensures { IfOk result (λ count. count ≤ length into.new) }
    {
        let count = self.integer::<usize>()?;
        if into.len() < count {
            return Err(Broken);
        }
        let mut done = 0;
        // a turn stores a run, of as many elements as the line says
        while done < count {
            let run = self.run()?;
            let value = make(run.value)?;
            if count - done < run.count {
                return Err(Broken);
            }
            for element in &mut into[done..done + run.count] {
                *element = value;
            }
            done += run.count;
        }
        Ok(count)
    }

    // A list of exactly the length of `into`.
    pub fn whole_list<T: Copy + TryFrom<i64>>(&mut self, into: &mut [T]) -> Result<(), Broken>
    where
        T::Error: Drop,
    {
        if self.list(into)? == into.len() {
            return Ok(());
        }
        Err(Broken)
    }

    // This whole number, behind a space.
    pub fn same_integer<T: TryFrom<i128> + PartialEq + Drop>(
        &mut self,
        found: T,
    ) -> Result<(), Broken>
    where
        T::Error: Drop,
    {
        if self.integer::<T>()? == found {
            return Ok(());
        }
        Err(Broken)
    }

    // This number behind a space, as T reads its text.
    pub fn same<T: FromStr + PartialEq + Drop>(&mut self, found: T) -> Result<(), Broken>
    where
        T::Err: Drop,
        ensures { IfOk result (λ _. (value : T) × IsNumber T.from_str_gives self.old.rest.now self.new.rest.now value × (T.eq value found ≡ true)) }
    {
        if self.number::<T>()? == found {
            return Ok(());
        }
        Err(Broken)
    }

    // This list.
    pub fn same_list<T: Copy + Into<i64>>(&mut self, found: &[T]) -> Result<(), Broken> {
        if self.integer::<usize>()? != found.len() {
            return Err(Broken);
        }
        let mut left = found;
        // a turn compares a run, of as many elements as the line says
        while !left.is_empty() {
            let run = self.run()?;
            let (front, behind) = left.split_at_checked(run.count).ok_or(Broken)?;
            let value = run.value;
            if !front.iter().all(|x| (*x).into() == value) {
                return Err(Broken);
            }
            left = behind;
        }
        Ok(())
    }

    // The same, where a length of -1 stands for the lent list: nothing was changed.
    pub fn same_lent<T: Copy + Into<i64>>(
        &mut self,
        mut lent: Line,
        found: &[T],
    ) -> Result<(), Broken> {
        let mut behind = *self;
        if behind.integer::<i64>()? != -1 {
            return self.same_list(found);
        }
        lent.same_list(found)?;
        *self = behind;
        Ok(())
    }
}

#[cfg(test)]
mod tests {
    use super::*;

    #[test]
    fn parts_a_number_from_its_line(rt: HostRuntime) {
        assert_eq!(rt; numeral_length(b"-12 7"), 3);
        assert_eq!(rt; numeral_length(b"+1"), 0);
        assert_eq!(rt; number_of::<u8>(b"255"), Ok(255));
        assert_eq!(rt; number_of::<u8>(b"256"), Err(Broken));
        let mut line = Line::new(b"*7");
        assert_eq!(rt; line.skip(b'*'), Ok(()));
        assert_eq!(rt; line.rest, b"7".as_slice());
        assert_eq!(rt; line.skip(b'*'), Err(Broken));
    }

    #[test]
    fn reads_what_a_type_reads(rt: HostRuntime) {
        let mut line = Line::new(b"18446744073709551616 -3 7 7 8 x");
        let mut other = line;
        assert_eq!(rt; other.first::<i64>(), Err(Broken));
        assert_eq!(rt; line.first::<u128>(), Ok(18446744073709551616));
        assert_eq!(rt; line.number::<i64>(), Ok(-3));
        assert_eq!(rt; line.number::<char>(), Ok('7'));
        assert_eq!(rt; line.same::<char>('7'), Ok(()));
        assert_eq!(rt; line.rest, b" 8 x".as_slice());
        other = line;
        assert_eq!(rt; other.same::<u8>(7), Err(Broken));
        assert_eq!(rt; line.number::<u128>(), Ok(8));
        assert_eq!(rt; line.number::<u128>(), Err(Broken));
    }

    #[test]
    fn reads_whole_numbers(rt: HostRuntime) {
        let mut line = Line::new(b"18446744073709551615 -9223372036854775808 -0 7");
        let mut other = line;
        assert_eq!(rt; other.first_integer::<i64>(), Err(Broken));
        assert_eq!(rt; line.first_integer::<u64>(), Ok(18446744073709551615));
        assert_eq!(rt; line.integer::<i64>(), Ok(-9223372036854775808));
        other = line;
        assert_eq!(rt; other.integer::<u8>(), Err(Broken));
        assert_eq!(rt; line.integer::<i8>(), Ok(0));
        other = line;
        assert_eq!(rt; other.same_integer::<u8>(8), Err(Broken));
        assert_eq!(rt; line.same_integer::<u8>(7), Ok(()));
        assert!(rt; line.is_empty());
        assert_eq!(rt;
            Line::new(b"18446744073709551616").first_integer::<u128>(),
            Err(Broken)
        );
    }
}
