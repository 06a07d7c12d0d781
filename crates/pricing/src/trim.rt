//! Which arcs are on standing plans.
ghost use Rattle.std.specs.Prelude.{◌≡◌, ◌≤◌, length};
ghost use Rattle.plans.specs.Cases.{on_some};
ghost use Rattle.charts.specs.Drafts.{arcs_of};
ghost use Rattle.through.specs.Keeping.{Sifted};
ghost use Rattle.pricing.specs.Answers.{standing_on};

use crate::sift::sift;
use charts::chart::Chart;
use tallies::kinds::Reach;

/// Takes away the mark of each arc on no standing plan, and answers how many. That each arc has a mark is a clause, as for
/// `strike`.
pub fn trim(chart: &Chart, standing: &mut [bool]) -> usize
    requires { length (arcs_of chart.now) ≤ length standing.old }
    ensures { Sifted (on_some (standing_on chart.now standing.old)) (length (arcs_of chart.now)) standing.old standing.new result }
{
    sift::<Reach, _>(
        chart,
        &[0; 1024],
        &mut [false; 1056],
        &mut [false; 1056],
        |_, front, back| front && back,
        standing,
    )
}
