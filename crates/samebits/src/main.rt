// Compares `square_root` with the standard library's root, bit for bit.
#![tactic(auto)]

use roots::square_root;
use std::io;
use std::num::{f64_from_bits_with_nan, f64_to_bits_with_nan};

// Patterns with random bits at `mask`, and with those of `fixed` besides.
#[derive(Clone, Copy)]
struct Patterns {
    name: &'static str,
    mask: u64,
    fixed: u64,
    count: usize,
}

const KINDS: [Patterns; 6] = [
    Patterns {
        name: "any pattern",
        mask: u64::MAX,
        fixed: 0,
        count: 500_000,
    },
    Patterns {
        name: "from 1/2 to 2",
        mask: 0x001f_ffff_ffff_ffff,
        fixed: 0x3fe0_0000_0000_0000,
        count: 250_000,
    },
    Patterns {
        name: "few digits",
        mask: 0x7fff_ffff_0000_0000,
        fixed: 0,
        count: 250_000,
    },
    Patterns {
        name: "just above a power of 2",
        mask: 0x7ff0_0000_0000_000f,
        fixed: 0,
        count: 250_000,
    },
    Patterns {
        name: "just below a power of 2",
        mask: 0x7ff0_0000_0000_000f,
        fixed: 0x000f_ffff_ffff_fff0,
        count: 250_000,
    },
    Patterns {
        name: "subnormal",
        mask: 0x000f_ffff_ffff_ffff,
        fixed: 0,
        count: 100_000,
    },
];

const SEED: u64 = 88172645463325252;

// A xorshift generator, by its state.
#[derive(Drop)]
struct Xorshift(u64);

impl Iterator for Xorshift {
    type Item = u64;

    fn next(&mut self) -> Option<u64> {
        self.0 ^= self.0 << 13;
        self.0 ^= self.0 >> 7;
        self.0 ^= self.0 << 17;
        Some(self.0)
    }
}

fn agrees(x: f64) -> bool {
    let ours = square_root(x);
    let theirs = x.sqrt();
    ours.is_nan() && theirs.is_nan() || f64_to_bits_with_nan(ours) == f64_to_bits_with_nan(theirs)
}

impl Patterns {
    // The first pattern at which the roots differ.
    fn difference(self) -> Option<u64> {
        Xorshift(SEED)
            .take(self.count)
            .map(|random| random & self.mask | self.fixed)
            .find(|bits| !agrees(f64_from_bits_with_nan(*bits)))
    }
}

// The first whole number below `count` at which the roots differ, or which is not the root of its
// square.
fn whole_difference(count: u32) -> Option<u32> {
    (0..count).find(|i| {
        let x = f64::from(*i);
        !agrees(x) || square_root(x * x) != x
    })
}

fn main(rt: HostRuntime) -> io::Result<()> {
    for kind in KINDS {
        let Patterns { name, count, .. } = kind;
        match kind.difference() {
            None => println!(rt; "{name}: {count} patterns, the same bits")?,
            Some(bits) => println!(rt; "{name}: the roots differ at the pattern {bits}")?,
        }
    }
    // The two reports share no sentence: one counts patterns and names one, the other names a number.
    match whole_difference(250_000) {
        None => println!(rt; "whole numbers and their squares: the same bits"),
        Some(i) => println!(rt; "whole numbers and their squares: the roots differ at {i}"),
    }
}
