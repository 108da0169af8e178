//! Recipes of a weigh head (RULES 12.1): components, and a type that holds nothing but a recipe
//! inside its limits.
#![tactic(auto)]

ghost use Rattle.std.specs.Prelude.{◌≡◌, true};
ghost use Rattle.std.specs.List.{list_all, list_any};
ghost use Rattle.recipes.specs.Recipe.{is_component, is_from, no_bin_twice, is_recipe};
ghost use Rattle.recipes.specs.Recipe.{read_recipe, places_of};

use std::marker::Model;
use types::refusals::Refusal;

/// The places of a weigh head, which is the most that a recipe may have.
pub const PLACES: usize = 16;

/// The last of the bins, which are numbered from 1 on.
pub const LAST_BIN: u8 = 64;

/// The most that a component may weigh, in grams.
pub const MOST_GRAMS: u16 = 30_000;

/// The places of a weigh head.
pub type Places = [Component; PLACES];

/// A component of a recipe, or what stands in a place: bin 0 and 0 grams where no component does.
#[repr(C)]
#[derive(Clone, Copy, Default, PartialEq, Eq)]
pub struct Component {
    /// The bin that it is taken from; of a recipe 1 to 64.
    pub bin: u8,
    /// How much is taken, in grams; of a recipe 1 to 30,000.
    pub grams: u16,
}

impl Component {
    /// What stands in a place without a component: bin 0 and 0 grams.
    pub const NONE: Component = Component { bin: 0, grams: 0 };

    // Whether a recipe may have it.
    fn is_within_limits(self) -> bool
        ensures { result ≡ is_component self }
    {
        (1..=LAST_BIN).contains(&self.bin) && (1..=MOST_GRAMS).contains(&self.grams)
    }
}

/// The places without a recipe.
pub const NO_PLACES: Places = [Component::NONE; PLACES];

fn are_within_limits(components: &[Component]) -> bool
    ensures { result ≡ list_all is_component components.now }
{
    components
        .iter()
        .all(|component| component.is_within_limits())
}

fn has_bin(components: &[Component], bin: u8) -> bool
    ensures { result ≡ list_any (is_from bin) components.now }
{
    components.iter().any(|component| component.bin == bin)
}

fn has_no_bin_twice(components: &[Component]) -> bool
    ensures { result ≡ no_bin_twice components.now }
{
    match components {
        [] => true,
        [first, rest @ ..] => !has_bin(rest, first.bin) && has_no_bin_twice(rest),
    }
}

fn is_recipe(components: &[Component]) -> bool
    ensures { result ≡ is_recipe components.now }
{
    (1..=PLACES).contains(&components.len())
        && are_within_limits(components)
        && has_no_bin_twice(components)
}

/// A recipe: 1 to 16 components, each with a bin from 1 to 64 and 1 to 30,000 grams, no bin twice.
/// Their order is that of the places.
#[derive(Drop)]
pub struct Recipe<'a> {
    components: &'a [Component],
}

impl<'a> Model for Recipe<'a> {
    ghost use Rattle.std.specs.Prelude.{◌≡◌, true, List};
    ghost use Rattle.recipes.specs.declared.Component.{Component};
    ghost use Rattle.recipes.specs.Recipe.{is_recipe};

    ghost Value = { List Component };

    ghost view = { λ r. r.components.now };

    ghost invariant = { λ r. is_recipe r.components.now ≡ true };
}

/// The recipe of these components. Refused by RecipeLimits where they are none.
impl<'a> TryFrom<&'a [Component]> for Recipe<'a> {
    type Error = Refusal;

    ghost try_from_gives = { λ cs r. r ≡ read_recipe cs.now };

    fn try_from(components: &'a [Component]) -> Result<Self, Refusal> {
        if is_recipe(components) {
            Ok(Recipe { components })
        } else {
            Err(Refusal::RecipeLimits)
        }
    }
}

impl Recipe<'_> {
    /// The places of a weigh head that has this recipe: its components in their order, and none
    /// behind them.
    pub fn places(&self) -> Places
        ensures within_limits { is_recipe self.now ≡ true }
        ensures filled { result ≡ places_of self.now }
    {
        let mut places = NO_PLACES;
        places[..self.components.len()].copy_from_slice(self.components);
        places
    }
}
