//! The plot of a call: from which quantity to which, and from which price.
ghost use Rattle.std.specs.Prelude.{◌≡◌, ◌<◌, ◌^◌};
ghost use Rattle.call_drawing.specs.Bars as bar;
ghost use Rattle.call_drawing.specs.Extents as spec;
ghost use Rattle.call_picture.specs.Pictures.{IsPictureInRange};
ghost use Rattle.page_plots.specs.Plots.{IsPlot};

use call_picture::pictures::CallPicture;
use call_picture::steps::SideStep;
use call_picture::windows::DrawnSteps;
use page_plots::plots::Plot;

/// The quantity at which the last step of a side ends.
fn end_of_steps(drawn: &DrawnSteps) -> u128
    requires { bar.end_of_steps drawn.now < 2 ^ 80 }
    ensures { result ≡ bar.end_of_steps drawn.now }
{
    let mut end = drawn.before;
    for step in &drawn.steps {
        end += step.quantity;
    }
    end
}

/// The greatest of a number and the limits of steps.
fn greatest_limit(number: u64, steps: &[SideStep]) -> u64
    ensures { result ≡ spec.greatest_limit number steps.now }
{
    let mut greatest = number;
    for step in steps {
        greatest = greatest.max(step.limit.units());
    }
    greatest
}

/// The least of a number and the limits of steps.
fn least_limit(number: u64, steps: &[SideStep]) -> u64
    ensures { result ≡ spec.least_limit number steps.now }
{
    let mut least = number;
    for step in steps {
        least = least.min(step.limit.units());
    }
    least
}

/// The greatest limit that is drawn; 0 where there is none.
fn highest_limit(picture: &CallPicture) -> u64
    ensures { result ≡ spec.highest_limit picture.now }
{
    let bids = greatest_limit(0, &picture.bids.drawn.steps);
    greatest_limit(bids, &picture.asks.drawn.steps)
}

/// The least limit that is drawn; 0 where there is none.
fn lowest_limit(picture: &CallPicture) -> u64
    ensures { result ≡ spec.lowest_limit picture.now }
{
    let bids = least_limit(highest_limit(picture), &picture.bids.drawn.steps);
    least_limit(bids, &picture.asks.drawn.steps)
}

/// The plot that the steps of both sides, the volume and the greatest volume need.
pub fn plot_of_call(picture: &CallPicture, greatest: u128) -> Plot
    requires { IsPictureInRange picture.now }
    ensures same { result ≡ spec.plot_of_call picture.now greatest }
    ensures plot { IsPlot result }
{
    let (bids, asks) = (&picture.bids.drawn, &picture.asks.drawn);
    let first = bids.before.min(asks.before);
    let ends = end_of_steps(bids).max(end_of_steps(asks));
    let last = ends.max(picture.volume.max(greatest));
    Plot::of(first, last, lowest_limit(picture), highest_limit(picture))
}
