// Published examples, computed by `frames` and compared with the published figures to the precision they are printed with.
// A line of standard output is an example's figure, and whether it is met.
#![tactic(auto)]

mod gade;
mod given;
mod jord;
mod nima;
mod report;

use crate::report::report;
use std::io;

fn main(rt: HostRuntime) -> io::Result<()> {
    report(&rt, &jord::from_aer())?;
    report(&rt, &jord::geocentric_radii())?;
    report(&rt, &jord::latitude_radii())?;
    report(&rt, &jord::other_radii())?;
    report(&rt, &jord::lengths())?;
    report(&rt, &nima::radii())?;
    report(&rt, &gade::example_1())?;
    report(&rt, &gade::example_2())?;
    report(&rt, &gade::example_3())?;
    report(&rt, &gade::example_4())
}
