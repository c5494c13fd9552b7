//! Worked examples of the search's policy.
ghost use Rattle.std.specs.Prelude.{◌≡◌, ◌≤◌, length};

use crate::expecting::{expect, expect_equal, expect_found};
use cx_base::{ClauseRef, Var};
use cx_trail::Trail;
use search_policy::{Card, Order, choose_removed, choose_removed_in_place, luby, restart_due};
use std::alloc::{AllocError, Global};

static FIRST_NUMBERS: [u64; 15] = [1, 1, 2, 1, 1, 2, 4, 1, 1, 2, 1, 1, 2, 4, 8];

/// The sequence's first numbers.
fn first_numbers() -> [u64; 15] {
    let mut numbers = [0; 15];
    for place in 0..15 {
        numbers[place] = luby(place as u64 + 1);
    }
    numbers
}

#[test]
fn luby_begins_with_its_known_numbers(rt: HostRuntime) {
    expect_equal(&rt, &first_numbers(), &FIRST_NUMBERS);
}

#[test]
fn luby_ends_its_longest_block_with_the_greatest_power(rt: HostRuntime) {
    let last = [
        luby(9_223_372_036_854_775_807),
        luby(9_223_372_036_854_775_806),
    ];
    let wanted = [4_611_686_018_427_387_904, 2_305_843_009_213_693_952];
    expect_equal(&rt, &last, &wanted);
}

#[test]
fn a_restart_is_due_after_a_hundred_conflicts_for_each(rt: HostRuntime) {
    let due = [
        restart_due(99, 1),
        restart_due(100, 1),
        restart_due(199, 3),
        restart_due(200, 3),
        restart_due(399, 7),
        restart_due(400, 7),
    ];
    expect_equal(&rt, &due, &[false, true, false, true, false, true]);
}

/// The card of a learned clause whose reference is ten more than its id.
fn card(id: u32, lbd: u32, is_reason: bool) -> Card {
    Card {
        reference: ClauseRef::new(id.saturating_add(10)),
        id: id as u64,
        lbd,
        learned: true,
        is_reason,
    }
}

/// The clauses that are removed of these.
fn removed(alloc: Global, cards: &[Card]) -> Result<String, AllocError> {
    let removed = choose_removed(alloc, cards)?;
    format!(in alloc; "{:?}", removed.as_slice())
}

#[test]
fn half_of_those_with_many_levels_go(rt: HostRuntime) {
    let cards = [
        card(1, 5, false),
        card(2, 2, false),
        card(3, 5, false),
        card(4, 9, true),
        card(5, 7, false),
        card(6, 3, false),
    ];
    let wanted = "[ClauseRef { place: 15 }, ClauseRef { place: 11 }]";
    expect(&rt, removed(rt.alloc(), &cards), wanted);
}

/// As `removed`, where they are chosen in the list.
fn removed_in_place(alloc: Global, cards: &[Card]) -> Result<String, AllocError> {
    let removed = choose_removed_in_place(alloc, cards.to_vec(alloc)?)?;
    format!(in alloc; "{:?}", removed.as_slice())
}

#[test]
fn clauses_of_the_formula_stay(rt: HostRuntime) {
    let mut given = card(1, 9, false);
    given.learned = false;
    let cards = [
        given,
        card(2, 8, false),
        card(3, 7, false),
        card(4, 6, false),
    ];
    let removed = removed_in_place(rt.alloc(), &cards);
    expect(&rt, removed, "[ClauseRef { place: 12 }]");
}

/// The picks of a new order, after four bumps of the third and three of the second, and after one more; and the weight.
fn bumped(order: &mut Order, trail: &Trail) -> ([Option<Var>; 3], u32)
    requires three { length order.old.scores ≡ 3 }
    requires same { trail.now.variables ≡ 3 }
{
    let new = order.pick(trail);
    order.bump_by(Var::new(3), 4);
    order.bump_by(Var::new(2), 3);
    let third = order.pick(trail);
    order.bump(Var::new(2));
    ([new, third, order.pick(trail)], order.weight())
}

/// As `bumped`, of a new order.
fn bumped_of_new(alloc: Global) -> Result<([Option<Var>; 3], u32), AllocError> {
    let trail = Trail::make(alloc, 3)?;
    let mut order = Order::make(alloc, 3)?;
    Ok(bumped(&mut order, &trail))
}

#[test]
fn many_bumps_are_those_one_by_one(rt: HostRuntime) {
    let picks = [Some(Var::new(1)), Some(Var::new(3)), Some(Var::new(2))];
    expect_found(&rt, bumped_of_new(rt.alloc()), &(picks, 1024));
}

/// Bumps the first variable up to one time below the bound.
fn bump_almost_to_bound(order: &mut Order)
    requires { 1 ≤ length order.old.scores }
    ensures { length order.new.scores ≡ length order.old.scores }
{
    order.bump_by(Var::new(1), 250_000_000);
    order.bump_by(Var::new(1), 250_000_000);
    order.bump_by(Var::new(1), 250_000_000);
    order.bump_by(Var::new(1), 249_999_999);
}

/// Bumps the second variable as often as makes it equal to the first.
fn bump_second(order: &mut Order)
    requires { 2 ≤ length order.old.scores }
    ensures { length order.new.scores ≡ length order.old.scores }
{
    order.bump_by(Var::new(2), 250_000_000);
    order.bump_by(Var::new(2), 250_000_000);
    order.bump_by(Var::new(2), 2);
}

/// The weight before the scores are halved and after that, and the picks where both are equal and after one bump more.
fn halved(order: &mut Order, trail: &Trail) -> ([u32; 2], [Option<Var>; 2])
    requires two { length order.old.scores ≡ 2 }
    requires same { trail.now.variables ≡ 2 }
{
    bump_almost_to_bound(order);
    let before = order.weight();
    order.bump_by(Var::new(1), 3);
    let behind = order.weight();
    bump_second(order);
    let equal = order.pick(trail);
    order.bump(Var::new(2));
    ([before, behind], [equal, order.pick(trail)])
}

/// As `halved`, of a new order.
fn halved_of_new(alloc: Global) -> Result<([u32; 2], [Option<Var>; 2]), AllocError> {
    let trail = Trail::make(alloc, 2)?;
    let mut order = Order::make(alloc, 2)?;
    Ok(halved(&mut order, &trail))
}

#[test]
fn bumps_go_on_after_all_scores_were_halved(rt: HostRuntime) {
    let picks = [Some(Var::new(1)), Some(Var::new(2))];
    expect_found(&rt, halved_of_new(rt.alloc()), &([1024, 512], picks));
}

/// The weight after one conflict, after two and after a thousand more.
fn weights(order: &mut Order) -> [u32; 3] {
    order.grow();
    let first = order.weight();
    order.grow();
    let second = order.weight();
    for _ in 0..1000 {
        order.grow();
    }
    [first, second, order.weight()]
}

/// As `weights`, of a new order.
fn weights_of_new(alloc: Global) -> Result<[u32; 3], AllocError> {
    let mut order = Order::make(alloc, 1)?;
    Ok(weights(&mut order))
}

#[test]
fn the_weight_grows_by_a_thirty_second(rt: HostRuntime) {
    let wanted = [1056, 1089, 250_000_000];
    expect_found(&rt, weights_of_new(rt.alloc()), &wanted);
}
