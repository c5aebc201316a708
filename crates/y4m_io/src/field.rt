// The fields of a head (own).
ghost use Rattle.std.specs.Prelude.{◌≡◌, ◌<◌, ◌≤◌, ◌^◌, ◌≢◌, IfSome};
ghost use Rattle.std.specs.Option.{ForSome};
ghost use Rattle.y4m_io.specs.HeadLine.{format_named, is_progressive, nothing_said, with_field, with_fields, with_aspect, with_format, with_height, with_interlace, with_letter, with_rate, with_width};

use crate::fault::Y4mWhy;
use crate::number::{number_within, ratio};
use crate::place::first_part;

/// The most that a number of a head counts as.
const MOST: u64 = 1 << 32;

/// The most that a number of an aspect may be: it has 24 bits in an identification header (Theora I, 6.2).
const MOST_ASPECT: u32 = 16_777_215;

/// What fields say.
#[derive(Clone, Copy)]
pub(crate) struct Fields {
    pub(crate) w: Option<u64>,
    pub(crate) h: Option<u64>,
    pub(crate) rate: Option<(u32, u32)>,
    pub(crate) aspect: Option<(u32, u32)>,
    pub(crate) interlace: bool,
    pub(crate) format: Option<u8>,
    ghost wide: { ForSome w (λ n. (1 ≤ n) × (n ≤ 2 ^ 32)) },
    ghost high: { ForSome h (λ n. (1 ≤ n) × (n ≤ 2 ^ 32)) },
    ghost some: { ForSome rate (λ r. (0 < r.0) × (0 < r.1)) },
    ghost small: { ForSome aspect (λ r. (r.0 < 2 ^ 24) × (r.1 < 2 ^ 24)) },
    ghost known: { ForSome format (λ f. (f ≤ 3) × (f ≢ 1)) },
}

// The pixel format of that name.
#[tactic(auto, unfolding(crate::specs::HeadLine::format_named))]
fn format_named(text: &[u8]) -> Option<u8>
    ensures value { result ≡ format_named text.now }
    ensures known { IfSome result (λ f. (f ≤ 3) × (f ≢ 1)) }
{
    if text == b"420jpeg".as_slice()
        || text == b"420mpeg2".as_slice()
        || text == b"420paldv".as_slice()
        || text == b"420".as_slice()
    {
        return Some(0);
    }
    if text == b"422".as_slice() {
        return Some(2);
    }
    if text == b"444".as_slice() {
        return Some(3);
    }
    None
}

// Whether the order of rows is progressive or unknown.
fn is_progressive(text: &[u8]) -> bool
    ensures { result ≡ is_progressive text.now }
{
    text == b"p".as_slice() || text == b"?".as_slice()
}

impl Fields {
    ghost use Rattle.y4m_io.specs.Fields.{said_by, Says};

    /// Before the first field.
    pub(crate) fn none() -> Fields
        ensures { said_by result ≡ nothing_said }
    {
        Fields {
            w: None,
            h: None,
            rate: None,
            aspect: None,
            interlace: false,
            format: None,
        }
    }

    // Adds the field of that letter.
    #[tactic(auto, unfolding(crate::specs::HeadLine::with_letter))]
    fn add_letter(&mut self, letter: u8, text: &[u8]) -> Result<(), Y4mWhy>
        ensures value { Says result (said_by self.new) (with_letter (said_by self.old) letter text.now) }
    {
        match letter {
            b'W' => self.add_width(text),
            b'H' => self.add_height(text),
            b'F' => self.add_rate(text),
            b'A' => self.add_aspect(text),
            b'I' => self.add_interlace(text),
            b'C' => self.add_format(text),
            b'X' => Ok(()),
            _ => Err(Y4mWhy::Field),
        }
    }

    fn add_width(&mut self, text: &[u8]) -> Result<(), Y4mWhy>
        ensures { Says result (said_by self.new) (with_width (said_by self.old) text.now) }
    {
        if self.w.is_some() {
            return Err(Y4mWhy::Field);
        }
        self.w = Some(number_within(text, 1, MOST).ok_or(Y4mWhy::Size)?);
        Ok(())
    }

    fn add_height(&mut self, text: &[u8]) -> Result<(), Y4mWhy>
        ensures { Says result (said_by self.new) (with_height (said_by self.old) text.now) }
    {
        if self.h.is_some() {
            return Err(Y4mWhy::Field);
        }
        self.h = Some(number_within(text, 1, MOST).ok_or(Y4mWhy::Size)?);
        Ok(())
    }

    fn add_rate(&mut self, text: &[u8]) -> Result<(), Y4mWhy>
        ensures { Says result (said_by self.new) (with_rate (said_by self.old) text.now) }
    {
        if self.rate.is_some() {
            return Err(Y4mWhy::Field);
        }
        self.rate = Some(ratio(text, 1, u32::MAX).ok_or(Y4mWhy::Rate)?);
        Ok(())
    }

    fn add_aspect(&mut self, text: &[u8]) -> Result<(), Y4mWhy>
        ensures { Says result (said_by self.new) (with_aspect (said_by self.old) text.now) }
    {
        if self.aspect.is_some() {
            return Err(Y4mWhy::Field);
        }
        self.aspect = Some(ratio(text, 0, MOST_ASPECT).ok_or(Y4mWhy::Aspect)?);
        Ok(())
    }

    fn add_interlace(&mut self, text: &[u8]) -> Result<(), Y4mWhy>
        ensures { Says result (said_by self.new) (with_interlace (said_by self.old) text.now) }
    {
        if self.interlace {
            return Err(Y4mWhy::Field);
        }
        if !is_progressive(text) {
            return Err(Y4mWhy::Interlace);
        }
        self.interlace = true;
        Ok(())
    }

    fn add_format(&mut self, text: &[u8]) -> Result<(), Y4mWhy>
        ensures { Says result (said_by self.new) (with_format (said_by self.old) text.now) }
    {
        if self.format.is_some() {
            return Err(Y4mWhy::Field);
        }
        self.format = Some(format_named(text).ok_or(Y4mWhy::Colour)?);
        Ok(())
    }

    /// Adds a field behind them.
    pub(crate) fn add(&mut self, field: &[u8]) -> Result<(), Y4mWhy>
        ensures { Says result (said_by self.new) (with_field (said_by self.old) field.now) }
    {
        match field {
            [] => Err(Y4mWhy::Field),
            [letter, text @ ..] => self.add_letter(*letter, text),
        }
    }
}
