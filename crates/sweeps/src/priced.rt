//! A chart with marks and prices for its arcs, as a sweep takes it.
ghost use Rattle.charts.specs.Drafts.{arcs_of};
ghost use Rattle.ways.specs.Amounts.{Sweepable};

use charts::chart::Chart;

/// A chart, a mark for each arc that stands, and a price for each arc. Marks and prices are arrays by the arc's number: a sealed
/// chart holds neither.
#[derive(Drop)]
pub struct Priced<'a> {
    pub chart: &'a Chart,
    pub standing: &'a [bool],
    pub prices: &'a [i64],
    // there is a mark and a price for each arc, and no price is too large
    ghost fit: { Sweepable (arcs_of chart.now) standing.now prices.now },
}
