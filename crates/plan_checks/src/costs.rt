//! What plans cost under `Area` and under `Ranked`.
use crate::jobs::{PLAIN, all, differential_equation, draft, plan_at_latency_4};
use cost::{Area, Ranked, Scheme, plan_cost};
use job::{Figures, Job, Kind};
use std::test::Fail;

const CEILING: u32 = 1_000_000_000;

// The kind with this area and draw.
fn priced(area: u16, draw: u16) -> Result<Kind, Fail> {
    let mut job = Job::new();
    job.add_kind(Figures {
        cap: 1,
        area,
        draw,
        ..PLAIN
    })?;
    job.kind(1).ok_or_else(|| Fail::new("no kind"))
}

#[test]
fn known_costs(rt: HostRuntime) -> Result<(), Fail> {
    let job = differential_equation(3, 7, 4)?;
    let slots = plan_at_latency_4();
    let plan = draft(&job, &slots);
    let rank = plan_cost(&Ranked, plan);
    all(
        &rt,
        &[
            (plan.units_of(1) == 2, "ALUs"),
            (plan.units_of(2) == 3, "multipliers"),
            (plan.units_of(3) == 0, "a kind that the job does not have"),
            (
                draft(&job, &slots[0..2]).units_of(2) == 2,
                "the first two operations",
            ),
            (plan_cost(&Area, plan) == 876, "area"),
            (rank.area == 876 && rank.draw == 234, "area and draw"),
            (
                plan_cost(&Area, draft(&Job::new(), &slots)) == 0,
                "a job of no kinds",
            ),
        ],
    );
    Ok(())
}

#[test]
fn areas_stop(rt: HostRuntime) -> Result<(), Fail> {
    let dear = priced(65_535, 1)?;
    all(
        &rt,
        &[
            (Area.price(dear, 0) == 0, "no units"),
            (Area.price(dear, 15_259) == 999_998_565, "below the ceiling"),
            (Area.price(dear, 15_260) == CEILING, "at the ceiling"),
            (Area.price(dear, 65_535) == CEILING, "the most units"),
            (
                Area.sum(CEILING - 2, 1) == CEILING - 1,
                "a sum below the ceiling",
            ),
            (Area.sum(CEILING - 1, 2) == CEILING, "a sum at the ceiling"),
            (Area.sum(u32::MAX, u32::MAX) == CEILING, "the largest sum"),
            (
                Area.at_most(1, 2) && Area.at_most(2, 2) && !Area.at_most(3, 2),
                "order",
            ),
        ],
    );
    Ok(())
}

#[test]
fn a_full_area_makes_a_full_draw(rt: HostRuntime) -> Result<(), Fail> {
    let dear = priced(65_535, 1)?;
    let full = Ranked.price(dear, 65_535);
    let drawn = Ranked.price(priced(1, 65_535)?, 65_535);
    let below = Ranked.price(dear, 15_259);
    let sum = Ranked.sum(below, below);
    let same = Ranked.sum(drawn, Ranked.zero());
    all(
        &rt,
        &[
            (full.area == CEILING && full.draw == CEILING, "a full area"),
            (
                drawn.area == 65_535 && drawn.draw == CEILING,
                "a full draw leaves the area",
            ),
            (
                below.area == 999_998_565 && below.draw == 15_259,
                "below the ceiling",
            ),
            (
                sum.area == CEILING && sum.draw == CEILING,
                "a sum at the ceiling",
            ),
            (
                same.area == 65_535 && same.draw == CEILING,
                "a sum with zero",
            ),
        ],
    );
    Ok(())
}

#[test]
fn ranks_compare_by_area_first(rt: HostRuntime) -> Result<(), Fail> {
    let small = Ranked.price(priced(2, 9)?, 1);
    let less = Ranked.price(priced(3, 1)?, 1);
    let more = Ranked.price(priced(3, 5)?, 1);
    all(
        &rt,
        &[
            (
                Ranked.at_most(small, less) && !Ranked.at_most(less, small),
                "by area",
            ),
            (
                Ranked.at_most(less, more) && !Ranked.at_most(more, less),
                "by draw",
            ),
            (Ranked.at_most(more, more), "itself"),
            (small < less && less < more, "the order of ranks"),
            (more == more && less != more, "equal ranks"),
        ],
    );
    Ok(())
}
