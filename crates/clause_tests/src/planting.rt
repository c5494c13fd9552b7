//! Planted instances. The literals come from SplitMix64 as its authors give it, computed apart from this repository.
ghost use Rattle.std.specs.Prelude.{◌≤◌};

use crate::expecting::expect;
use crate::writing::show;
use inst_gen::{InstanceKind, planted};
use std::alloc::{AllocError, Global};

/// What `show` tells of an instance of this kind and size that is planted from this seed.
fn told(
    alloc: Global,
    kind: InstanceKind,
    size: u32,
    seed: u64,
    places: &[usize],
) -> Result<String, AllocError>
    requires low { 4 ≤ size }
    requires high { size ≤ 2000 }
{
    let formula = planted(alloc, kind, size, seed)?;
    show(alloc, &formula, places)
}

#[test]
fn the_smallest_odd_instance(rt: HostRuntime) {
    let places = [0, 1, 2, 3, 4, 5, 6, 9];
    let told = told(rt.alloc(), InstanceKind::Odd, 4, 0, &places);
    let wanted = "\
5 10 8
0: x [4, 2, 1]
1: [-2, -1, 4]
2: [3, 2, -3]
3: [-4, -4, -2]
4: [-4, 2, -3]
5: x [4, 2, 1, -5]
6: [-5, 1, 2]
9: [-5, -1, -2]
";
    expect(&rt, told, wanted);
}

#[test]
fn an_odd_instance_of_sixty(rt: HostRuntime) {
    let places = [0, 1, 2, 15, 16, 74, 76];
    let told = told(rt.alloc(), InstanceKind::Odd, 60, 7, &places);
    let wanted = "\
61 80 64
0: x [4, 1, 1]
1: x [8, 5, 1]
2: x [-12, 8, 7]
15: [-21, 38, 34]
16: [-51, -24, -55]
74: [-34, 19, -17]
76: [-61, 1, 2]
";
    expect(&rt, told, wanted);
}

#[test]
fn an_even_instance_of_sixty(rt: HostRuntime) {
    let told = told(rt.alloc(), InstanceKind::Even, 60, 7, &[2, 74]);
    let wanted = "60 75 60\n2: x [-12, 8, 7]\n74: [-34, 19, -17]\n";
    expect(&rt, told, wanted);
}
