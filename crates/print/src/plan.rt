// A plan as text.
ghost use Rattle.std.specs.Prelude.{◌≡◌, ◌+◌, ◌≤◌, length};
ghost use Rattle.frame.specs.Laid.{laid};
ghost use Rattle.print.specs.Texts.{segment_text, segments_text, energy_text, text_of};
ghost use Rattle.text.specs.Writing.{Wrote};

use model::segment::Segment;
use text::pen::Pen;

// Writes a segment on a line: its step and its ticks.
#[tactic(auto, using(crate::proofs::Lengths::segment_length))]
fn put_segment(pen: &mut Pen, segment: &Segment)
    requires { pen.old.at + length (segment_text segment.now) ≤ length pen.old.out.now }
    ensures { Wrote pen.old pen.new (segment_text segment.now) }
{
    pen.number(segment.step as u64);
    pen.byte(b' ');
    pen.number(segment.ticks);
    pen.byte(b'\n');
}

// Writes segments, each on a line.
fn put_segments(pen: &mut Pen, segments: &[Segment])
    requires { pen.old.at + length (segments_text segments.now) ≤ length pen.old.out.now }
    ensures { Wrote pen.old pen.new (segments_text segments.now) }
{
    for segment in segments {
        put_segment(pen, segment);
    }
}

// Writes the energy on a line.
#[tactic(auto, using(crate::proofs::Lengths::energy_length))]
fn put_energy(pen: &mut Pen, energy: u64)
    requires { pen.old.at + length (energy_text energy) ≤ length pen.old.out.now }
    ensures { Wrote pen.old pen.new (energy_text energy) }
{
    pen.word(b"energy ");
    pen.number(energy);
    pen.byte(b'\n');
}

// Writes a plan from the start: its segments, each on a line, and then its energy. Answers its length.
pub fn put_plan(out: &mut [u8], segments: &[Segment], energy: u64) -> usize
    requires { length (text_of segments.now energy) ≤ length out.old }
    ensures place { result ≡ length (text_of segments.now energy) }
    ensures bytes { out.new ≡ laid 0 (text_of segments.now energy) out.old }
{
    let mut pen = Pen::new(out);
    put_segments(&mut pen, segments);
    put_energy(&mut pen, energy);
    pen.at
}
