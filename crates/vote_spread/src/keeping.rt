// Keep values, and what follows from them.
ghost use Rattle.std.specs.Prelude.{◌≡◌, ◌^◌, ◌<◌, ◌≤◌, All, IfOk, false, length, map, replicate, true};
ghost use Rattle.fixed_place.specs.Rounding.{scale};
ghost use Rattle.vote_spread.specs.declared.class.Class.{Class};
ghost use Rattle.vote_spread.specs.Class.{class_of};
ghost use Rattle.vote_spread.specs.Factor.{factors_of};
ghost use Rattle.vote_spread.specs.KeepingSeen.{classes_of, settled, TakesOver};

use crate::NoMemory;
use crate::class::Class;
use crate::factor::factor_of;
use crate::lane::zeros;
use crate::leaving::Leaving;
use fixed_place::Keeps;
use std::alloc::Global;
use std::marker::Model;

/// The keep value of each candidate, the share that each leaves by it, and what each does to a weight.
#[derive(Drop)]
pub(crate) struct Keeping {
    one: u64,
    keeps: Vec<u64>,
    factors: Vec<u64>,
    classes: Vec<Class>,
    /// Whether a class changed since the lanes made their rows.
    stale: bool,
}

impl Model for Keeping {
    ghost use Rattle.vote_spread.specs.KeepingSeen.{KeepingSeen, AreKept};

    ghost Value = { KeepingSeen };

    ghost view = { λ k. record { one = k.one; keeps = k.keeps.items; stale = k.stale } };

    ghost invariant = { λ k. AreKept k.one k.keeps.items k.factors.items k.classes.items };
}

impl Keeping {
    /// Candidates that keep nothing, where `one` units are the whole.
    pub(crate) fn nothing(alloc: Global, one: u64, candidates: usize) -> Result<Keeping, NoMemory>
        requires whole { 1 ≤ one }
        requires small { one ≤ 1000000000 }
        requires few { candidates < 2 ^ 32 }
        ensures { IfOk result (λ keeping. keeping ≡ record { one = one; keeps = replicate candidates 0; stale = true }) }
    {
        let keeps = zeros(alloc, candidates)?;
        let mut factors = zeros(alloc, candidates)?;
        find_factors(one, keeps.as_slice(), factors.as_mut_slice());
        let classes = vec![in alloc; Class::Passes; candidates]?;
        Ok(Keeping {
            one,
            keeps,
            factors,
            classes,
            stale: true,
        })
    }

    /// How many units are the whole.
    pub(crate) fn one(&self) -> u64
        ensures { result ≡ self.now.one }
    {
        self.one
    }

    pub(crate) fn classes(&self) -> &[Class]
        ensures { result.now ≡ classes_of self.now }
    {
        self.classes.as_slice()
    }

    /// Whether a class changed since the lanes made their rows.
    pub(crate) fn is_stale(&self) -> bool
        ensures { result ≡ self.now.stale }
    {
        self.stale
    }

    /// Says that all lanes have made their rows.
    pub(crate) fn settle(&mut self)
        ensures { self.new ≡ settled self.old }
    {
        self.stale = false;
    }

    /// Takes over the keep values at which ballots are to be distributed.
    pub(crate) fn load<const P: usize>(&mut self, keeps: &Keeps<P>)
        requires scale { self.old.one ≡ scale P }
        requires keeps_of_all { length keeps.now ≡ length self.old.keeps }
        ensures { TakesOver keeps.now self.old self.new }
    {
        copy_units(keeps, self.keeps.as_mut_slice());
        find_factors(self.one, self.keeps.as_slice(), self.factors.as_mut_slice());
        if classify(self.one, self.keeps.as_slice(), self.classes.as_mut_slice()) {
            self.stale = true;
        }
    }

    /// What each candidate leaves of a weight by these keep values.
    pub(crate) fn leaving(&self) -> Leaving<'_>
        ensures { result ≡ self.now }
    {
        Leaving {
            keeping: self,
            factors: self.factors.as_slice(),
        }
    }
}

/// Takes over the units of keep values.
fn copy_units<const P: usize>(keeps: &Keeps<P>, units: &mut [u64])
    requires { length keeps.now ≡ length units.old }
    ensures places { P ≤ 9 }
    ensures units { units.new ≡ keeps.now }
    ensures at_most_one { All (λ k. k ≤ scale P) units.new }
{
    for i in 0..keeps.len() {
        units[i] = keeps.get(i).units();
    }
}

/// Finds the factors of keep values, of which `one` is the whole.
fn find_factors(one: u64, keeps: &[u64], factors: &mut [u64])
    requires some { 1 ≤ one }
    requires small { one ≤ 1000000000 }
    requires at_most_one { All (λ k. k ≤ one) keeps.now }
    requires of_all { length factors.old ≡ length keeps.now }
    ensures { factors.new ≡ factors_of one keeps.now }
{
    for i in 0..keeps.len() {
        factors[i] = factor_of(keeps[i], one);
    }
}

/// Takes over the classes of keep values, of which `one` is the whole, and says whether one changed.
fn classify(one: u64, keeps: &[u64], classes: &mut [Class]) -> bool
    requires { length classes.old ≡ length keeps.now }
    ensures classes { classes.new ≡ map (class_of one) keeps.now }
    ensures changed { result ≡ false → classes.new ≡ classes.old }
{
    let mut changed = false;
    for i in 0..keeps.len() {
        let class = Class::of(keeps[i], one);
        let same = class.is(classes[i]);
        classes[i] = class;
        changed |= !same;
    }
    changed
}
