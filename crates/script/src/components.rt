//! The components of a recipe, to the end of a line.
ghost use Rattle.std.specs.Prelude.{◌≡◌, option_copied};
ghost use Rattle.script.specs.Reads.{gives};
ghost use Rattle.script.specs.Components.{component, components};

use crate::LineComponents;
use crate::words::Words;
use recipes::Component;

impl Words<'_> {
    // A bin and grams.
    #[tactic(auto, unfolding(crate::specs::Components::component))]
    fn component(&mut self) -> Option<Component>
        ensures { gives result self.new.rest.now ≡ component self.old.rest.now }
    {
        Some(Component {
            bin: self.bits8()?,
            grams: self.bits16()?,
        })
    }

    /// Components to the end of the line, at most 20.
    pub(crate) fn components<'a>(
        &mut self,
        memory: &'a mut LineComponents,
    ) -> Option<&'a [Component]>
        ensures { gives (option_copied result) self.new.rest.now ≡ components self.old.rest.now }
    {
        memory.clear();
        while self.end().is_none() {
            memory.try_push(self.component()?).ok()?;
        }
        Some(memory.as_slice())
    }
}
