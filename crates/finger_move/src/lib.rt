//! Finger moves: a chord of a strand is pushed into a segment that borders its piece, and comes straight back. After
//! Sarkar and Wang (2010).
//!
//! A finger puts two new points next to one another into a segment of a side. The strand leaves there and comes back,
//! so two letters that cancel come into its word. All other order stays, and no two chords cross.
#![tactic(auto)]

ghost use Rattle.std.specs.Prelude.{◌≡◌, ◌≤◌, suc, map, IsTrue, ◌↔◌};
ghost use Rattle.page_surface.specs.Drawing.{words};
ghost use Rattle.page_surface.specs.Words.{reduced};
ghost use Rattle.drawing.specs.Fingers.{IsEffect, IsLegal, pushed};

#[cfg(test)]
mod tests;

use drawing::Drawing;
pub use drawing::Finger;

/// Whether a finger is legal: whether its strand, chord, side and segment are there, and the chord borders the piece
/// that holds the segment. One pass over the exits; takes no memory.
pub fn is_legal(drawing: &Drawing, finger: &Finger) -> bool
    ensures { IsTrue result ↔ IsLegal drawing.now.drawing finger.now }
{
    let sides = drawing.polygon().sides();
    finger.strand.number() < sides / 2
        && finger.chord < drawing.chords(finger.strand)
        && finger.side.number() < sides
        && finger.segment <= drawing.points_on(finger.side)
        && drawing.pieces_share(finger.strand, finger.chord, finger.side, finger.segment)
}

/// Pushes a legal finger: leaves the drawing that it makes, of which there is exactly one. Takes one of the room that
/// `Drawing::reserve` makes, and no memory. Linear in all exits and the sides.
pub fn apply(drawing: &mut Drawing, finger: &Finger)
    requires legal { IsLegal drawing.old.drawing finger.now }
    requires room { 1 ≤ drawing.old.room }

    ensures effect { IsEffect drawing.old.drawing finger.now drawing.new.drawing }
    ensures value { drawing.new.drawing ≡ pushed drawing.old.drawing finger.now }
    ensures words { map (reduced drawing.old.drawing.polygon) (words drawing.new.drawing) ≡ map (reduced drawing.old.drawing.polygon) (words drawing.old.drawing) }

    ensures room { suc drawing.new.room ≡ drawing.old.room }
{
    // That a drawing has points says that it is embedded.
    let _ = drawing.points();
    drawing.push(finger.strand, finger.chord, finger.side, finger.segment);
}
