//! The grammar of a configuration, byte by byte: a stage is where in a statement the next byte stands. To add to
//! the grammar, add a stage, say in `take_other` which bytes it takes, and say the same in specs/Scanning.antt.

ghost use Rattle.std.specs.Prelude.{◌≡◌, ◌+◌, ◌<◌, ◌≤◌, length, IfSome};
ghost use Rattle.log_schedule.specs.Scanning.{is_between as between_lem};
ghost use Rattle.log_schedule.specs.Scanning.{
  after_byte,
  after_word,
  blank_of,
  digit_byte,
  first_byte,
  in_word,
  interval_byte,
  letter_byte,
  minute_byte,
  name_byte,
  name_end,
  next_of,
  number_byte,
  other_of,
  brace_byte,
  part_byte,
  comma_byte,
  unit_byte,
  unit_text,
  word_byte,
  word_text,
  millis,
  IsStage,
  IsWord,
};

use crate::bytes::{is_blank, is_digit, is_letter, is_name_byte};

/// A unit of an interval.
#[derive(Clone, Copy)]
pub enum Unit {
    Msec,
    Sec,
    Min,
    Hour,
}

/// A word of a statement; a unit has its number beside it.
#[derive(Clone, Copy)]
pub enum Word {
    Log,
    Mandatory,
    On,
    Every,
    Once,
    Unit(Unit, u64),
}

/// What comes after a gap.
#[derive(Clone, Copy)]
pub enum Next {
    Mandatory,
    On,
    Interval,
    Number,
}

/// The stage of a statement at which the next byte stands.
#[derive(Clone, Copy)]
pub enum Stage {
    /// Before a statement, or past the last.
    Between,
    /// In a word of which so many bytes are read.
    Word(Word, usize),
    /// Where a blank has to come.
    Gap(Next),
    /// After a blank.
    Spaced(Next),
    /// In a number, so great as yet.
    Number(u64),
    /// Between a number and its unit.
    Unit(u64),
    /// After the m of `msec` or `min`.
    Minute(u64),
    /// Before the opening brace.
    Brace,
    /// Before the first name.
    First,
    /// After a letter, a digit or `_` of a name.
    Name,
    /// After a `.` of a name.
    Dot,
    /// Between names, after a comma.
    Comma,
    /// After a name and a blank.
    After,
}

/// What a byte changes in what has been found.
#[derive(Clone, Copy)]
pub enum Act {
    Keep,
    /// The interval is whole, in milliseconds; `None` for `once`.
    Interval(Option<u64>),
    /// The byte begins a name.
    Begin,
    /// The byte belongs to the name begun.
    Add,
    /// The name begun is whole.
    Name,
    /// The statement is whole.
    Statement,
    /// The name begun and the statement are whole.
    Last,
}

impl Unit {
    fn text(self) -> &'static [u8]
        ensures { result.now ≡ unit_text self }
    {
        match self {
            Unit::Msec => b"msec",
            Unit::Sec => b"sec",
            Unit::Min => b"min",
            Unit::Hour => b"hour",
        }
    }

    fn millis(self) -> u64
        ensures value { result ≡ millis self }
        ensures bound { result ≤ 3600000 }
    {
        match self {
            Unit::Msec => 1,
            Unit::Sec => 1_000,
            Unit::Min => 60_000,
            Unit::Hour => 3_600_000,
        }
    }
}

impl Word {
    fn text(self) -> &'static [u8]
        ensures { result.now ≡ word_text self }
    {
        match self {
            Word::Log => b"log",
            Word::Mandatory => b"mandatory",
            Word::On => b"on",
            Word::Every => b"every",
            Word::Once => b"once",
            Word::Unit(unit, _) => unit.text(),
        }
    }

    // The stage after the whole word, and what the word's last byte changes.
    fn after(self) -> (Stage, Act)
        requires { IsWord self }
        ensures value { result ≡ after_word self }
        ensures stage { IsStage result.0 }
    {
        match self {
            Word::Log => (Stage::Gap(Next::Mandatory), Act::Keep),
            Word::Mandatory => (Stage::Gap(Next::On), Act::Keep),
            Word::On => (Stage::Gap(Next::Interval), Act::Keep),
            Word::Every => (Stage::Gap(Next::Number), Act::Keep),
            Word::Once => (Stage::Brace, Act::Interval(None)),
            Word::Unit(unit, number) => (Stage::Brace, Act::Interval(Some(number * unit.millis()))),
        }
    }

    // The word of which so many bytes are read takes the byte.
    fn take(self, seen: usize, byte: u8) -> Option<(Stage, Act)>
        requires word { IsWord self }
        requires seen { «seen» < length (word_text self) }
        ensures value { result ≡ word_byte self seen byte }
        ensures stage { IfSome result (λ step. IsStage step.0) }
    {
        let text = self.text();
        if byte != text[seen] {
            return None;
        }
        if seen + 1 == text.len() {
            return Some(self.after());
        }
        Some((Stage::Word(self, seen + 1), Act::Keep))
    }
}

// A further digit of a number.
fn take_digit(number: u64, byte: u8) -> Option<(Stage, Act)>
    requires { number ≤ 1000000000 }
    ensures value { result ≡ digit_byte number byte }
    ensures stage { IfSome result (λ step. IsStage step.0) }
{
    if !is_digit(byte) {
        return None;
    }
    let longer = number * 10 + (byte - b'0') as u64;
    if longer > 1_000_000_000 {
        return None;
    }
    Some((Stage::Number(longer), Act::Keep))
}

// The first digit of a number.
fn take_number(byte: u8) -> Option<(Stage, Act)>
    ensures value { result ≡ number_byte byte }
    ensures stage { IfSome result (λ step. IsStage step.0) }
{
    if byte == b'0' {
        return None;
    }
    take_digit(0, byte)
}

// The first byte of an interval.
fn take_interval(byte: u8) -> Option<(Stage, Act)>
    ensures value { result ≡ interval_byte byte }
    ensures stage { IfSome result (λ step. IsStage step.0) }
{
    match byte {
        b'o' => Some((Stage::Word(Word::Once, 1), Act::Keep)),
        b'e' => Some((Stage::Word(Word::Every, 1), Act::Keep)),
        _ => take_number(byte),
    }
}

impl Next {
    // The first byte of what comes after the gap.
    fn take(self, byte: u8) -> Option<(Stage, Act)>
        ensures value { result ≡ first_byte self byte }
        ensures stage { IfSome result (λ step. IsStage step.0) }
    {
        match self {
            Next::Mandatory => Word::Mandatory.take(0, byte),
            Next::On => Word::On.take(0, byte),
            Next::Interval => take_interval(byte),
            Next::Number => take_number(byte),
        }
    }
}

// The first byte of a number's unit.
fn take_unit(number: u64, byte: u8) -> Option<(Stage, Act)>
    requires { number ≤ 1000000000 }
    ensures value { result ≡ unit_byte number byte }
    ensures stage { IfSome result (λ step. IsStage step.0) }
{
    match byte {
        b'm' => Some((Stage::Minute(number), Act::Keep)),
        b's' => Some((Stage::Word(Word::Unit(Unit::Sec, number), 1), Act::Keep)),
        b'h' => Some((Stage::Word(Word::Unit(Unit::Hour, number), 1), Act::Keep)),
        _ => None,
    }
}

// The byte after the m of `msec` or `min`.
fn take_minute(number: u64, byte: u8) -> Option<(Stage, Act)>
    requires { number ≤ 1000000000 }
    ensures value { result ≡ minute_byte number byte }
    ensures stage { IfSome result (λ step. IsStage step.0) }
{
    match byte {
        b's' => Some((Stage::Word(Word::Unit(Unit::Msec, number), 2), Act::Keep)),
        b'i' => Some((Stage::Word(Word::Unit(Unit::Min, number), 2), Act::Keep)),
        _ => None,
    }
}

// The first byte of a name.
fn take_letter(byte: u8) -> Option<(Stage, Act)>
    ensures { result ≡ letter_byte byte }
{
    if is_letter(byte) {
        Some((Stage::Name, Act::Begin))
    } else {
        None
    }
}

// A byte after a letter, a digit or `_` of a name.
fn take_name(byte: u8) -> Option<(Stage, Act)>
    ensures { result ≡ name_byte byte }
{
    if is_name_byte(byte) {
        return Some((Stage::Name, Act::Add));
    }
    if byte == b'.' {
        return Some((Stage::Dot, Act::Add));
    }
    end_name(byte)
}

// A byte that ends a name.
fn end_name(byte: u8) -> Option<(Stage, Act)>
    ensures { result ≡ name_end byte }
{
    match byte {
        b' ' | b'\n' => Some((Stage::After, Act::Name)),
        b',' => Some((Stage::Comma, Act::Name)),
        b'}' => Some((Stage::Between, Act::Last)),
        _ => None,
    }
}

// A byte that is no blank after a name and blanks.
fn take_after(byte: u8) -> Option<(Stage, Act)>
    ensures { result ≡ after_byte byte }
{
    match byte {
        b',' => Some((Stage::Comma, Act::Keep)),
        b'}' => Some((Stage::Between, Act::Statement)),
        _ => take_letter(byte),
    }
}

// The brace before the names.
fn take_brace(byte: u8) -> Option<(Stage, Act)>
    ensures { result ≡ brace_byte byte }
{
    if byte != b'{' {
        return None;
    }
    Some((Stage::First, Act::Keep))
}

// The first letter of a further component of a name.
fn take_part(byte: u8) -> Option<(Stage, Act)>
    ensures { result ≡ part_byte byte }
{
    if !is_letter(byte) {
        return None;
    }
    Some((Stage::Name, Act::Add))
}

// A byte that is no blank after a comma.
fn take_comma(byte: u8) -> Option<(Stage, Act)>
    ensures { result ≡ comma_byte byte }
{
    if byte == b',' {
        return Some((Stage::Comma, Act::Keep));
    }
    take_letter(byte)
}

impl Stage {
    /// Whether a configuration may end here.
    pub fn is_between(self) -> bool
        ensures { result ≡ between_lem self }
    {
        matches!(self, Stage::Between)
    }

    /// The stage after the byte, and what the byte changes; `None` where no statement has the byte here.
    pub fn take(self, byte: u8) -> Option<(Stage, Act)>
        requires { IsStage self }
        ensures value { result ≡ next_of self byte }
        ensures stage { IfSome result (λ step. IsStage step.0) }
    {
        if is_blank(byte)
            && let Some(after) = self.after_blank()
        {
            return Some((after, Act::Keep));
        }
        self.take_other(byte)
    }

    // The same of a byte that is no blank, or that stands where a blank leads to no stage of its own.
    fn take_other(self, byte: u8) -> Option<(Stage, Act)>
        requires { IsStage self }
        ensures value { result ≡ other_of self byte }
        ensures stage { IfSome result (λ step. IsStage step.0) }
    {
        match self {
            Stage::Between => Word::Log.take(0, byte),
            Stage::Word(word, seen) => word.take(seen, byte),
            Stage::Gap(_) => None,
            Stage::Spaced(next) => next.take(byte),
            Stage::Number(number) => take_digit(number, byte),
            Stage::Unit(number) => take_unit(number, byte),
            Stage::Minute(number) => take_minute(number, byte),
            Stage::Brace => take_brace(byte),
            Stage::First => take_letter(byte),
            Stage::Name => take_name(byte),
            Stage::Dot => take_part(byte),
            Stage::Comma => take_comma(byte),
            Stage::After => take_after(byte),
        }
    }

    // The stage after a blank that stands here and means nothing else.
    fn after_blank(self) -> Option<Stage>
        ensures { result ≡ blank_of self }
    {
        match self {
            Stage::Gap(next) => Some(Stage::Spaced(next)),
            Stage::Number(number) => Some(Stage::Unit(number)),
            Stage::Word(..) | Stage::Minute(_) | Stage::Name | Stage::Dot => None,
            _ => Some(self),
        }
    }
}
