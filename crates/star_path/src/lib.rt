// Writes the path of a polystar, and counts its numbers.
#![tactic(auto)]

ghost use Rattle.std.specs.Prelude.{◌≡◌, length};
ghost use Rattle.std.proofs.Common.{lit<};
ghost use Rattle.std.proofs.Math.Nat.{lt_trans};
ghost use Rattle.command.specs.Commands.{numbers_of};
ghost use Rattle.sheet.specs.Sheets.{HasRoom, Wrote};
ghost use Rattle.polystar.specs.Polystar.{point_at, polystar_path, Sound};

use path::{BezierVertex, Outline};
use polystar::Polystar;
use sheet::Sheet;

// The points of a polystar, as the vertices of its path.
#[derive(Clone, Copy)]
struct Points {
    star: Polystar,
    ghost sound: { Sound star },
}

impl Outline for Points {
    ghost count = { λ points. points.star.count };

    ghost vertex = { λ points. point_at points.star };

    ghost some = { λ points. lt_trans (lit< tt) points.sound.some };

    ghost few = { λ points. points.sound.few };

    fn count(&self) -> usize {
        self.star.count
    }

    fn vertex(&self, k: usize) -> BezierVertex {
        self.star.point_at(k)
    }
}

// Writes the path.
#[tactic(auto, using(crate::proofs::Along::path_is))]
pub fn write_star(star: Polystar, sheet: &mut Sheet)
    requires sound { Sound star }
    requires room { HasRoom (polystar_path star) sheet.old }
    ensures { Wrote (polystar_path star) sheet.old sheet.new }
{
    segment_writer::write_outline(true, &Points { star }, sheet);
}

// How many numbers the path has.
#[tactic(auto, using(crate::proofs::Along::path_is, crate::proofs::Along::none_passed))]
pub fn star_numbers(star: Polystar) -> usize
    requires { Sound star }
    ensures { result ≡ length (numbers_of (polystar_path star)) }
{
    segments::outline_numbers(true, &Points { star }, 0)
}
