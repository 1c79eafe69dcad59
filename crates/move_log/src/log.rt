// The log of moves.
ghost use Rattle.std.specs.Prelude.{◌≡◌, ◌≢◌, ◌↔◌, Err, IfErr, IfOk, IsOk};
ghost use Rattle.move_log.specs.Text.{IsInRange, IsLogText, IsReading, Says, log_text};
ghost use Rattle.move_log.specs.declared.log.LogRefusal.TheVariants as refused;

use crate::entry::{put_entries, read_entries};
use drawing::Finger;
use obd_base::{Items, NoMemory, SideNo, Text};
use std::alloc::Global;

/// The moves that were made: first the handle slides, each by the side that is slid, and then the fingers.
#[derive(Drop)]
pub struct Log {
    pub slides: Items<SideNo>,
    pub fingers: Items<Finger>,
}

/// Why a text is no log's.
#[derive(Clone, Copy, Debug, PartialEq, Eq)]
pub enum LogRefusal {
    /// A line, counted from 1, is neither of a slide nor of a finger, or is of a slide behind a finger, or lacks its
    /// line feed: the first such line.
    Form { line: usize },
    /// Memory is wanting.
    NoMemory,
}

impl From<NoMemory> for LogRefusal {
    ghost use Rattle.move_log.specs.declared.log.LogRefusal.TheVariants as refused;

    ghost from_gives = { λ _ refusal. refusal ≡ refused.NoMemory };

    fn from(_: NoMemory) -> Self {
        LogRefusal::NoMemory
    }
}

impl Log {
    /// A line for each slide, and then one for each finger. The refusal is want of memory. Linear in the text.
    pub fn text(&self, alloc: Global) -> Result<Text, NoMemory>
        ensures text { IfOk result (λ text. text ≡ log_text self.now) }
        ensures in_range { IfOk result (λ _. IsInRange self.now) }
    {
        let mut text = Text::new(alloc);
        put_entries(&mut text, self.slides.as_slice())?;
        put_entries(&mut text, self.fingers.as_slice())?;
        Ok(text)
    }

    /// The log whose text this is. Where memory isn't wanting, a text is read exactly where it is a log's, and `Form`
    /// names its first wrong line otherwise. Linear in the text.
    pub fn parse(alloc: Global, text: &[u8]) -> Result<Log, LogRefusal>
        ensures ok { IfOk result (λ log. IsReading text.now log) }
        ensures refused { IfErr result (Says text.now) }
        ensures exact { result ≢ Err refused.NoMemory → IsOk result ↔ IsLogText text.now }
    {
        let (slides, words) = read_entries::<SideNo>(alloc, text)?;
        let (fingers, rest) = read_entries::<Finger>(alloc, words)?;
        if rest.is_empty() {
            return Ok(Log { slides, fingers });
        }
        let line = slides.len() + fingers.len() + 1;
        Err(LogRefusal::Form { line })
    }
}
