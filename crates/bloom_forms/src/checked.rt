//! A module that was checked.
ghost use Rattle.std.specs.Prelude.{◌≡◌, IfOk};
ghost use Rattle.bloom_forms.specs.Checks.{IsChecked};
ghost use Rattle.bloom_forms.specs.Form.{form_of};
ghost use Rattle.bloom_forms.specs.Numbered.{AreNumbered};

use crate::module::Module;
use crate::numbered::NumberedRule;
use crate::numbering::numbered_rules;
use blz_value::Faithful;
use std::alloc::{AllocError, Global};
use std::marker::Model;

/// A module that was checked, with the order in which a step takes its heads, and its rules by
/// numbers.
#[derive(Drop)]
pub struct Checked {
    module: Module,
    heads: Vec<u32>,
    rules: Vec<NumberedRule>,
}

impl Model for Checked {
    ghost use Rattle.std.specs.Coded.{codes};
    ghost use Rattle.bloom_forms.specs.Form.{Accepted, form_of};
    ghost use Rattle.bloom_forms.specs.Codes.{accepted_code};

    ghost Value = { Accepted };

    ghost coded = { accepted_code (Prim.hlevel codes) (Prim.hlevel codes) };

    ghost use Rattle.bloom_forms.specs.Checks.{IsChecked};
    ghost use Rattle.bloom_forms.specs.Form.{rule_forms};
    ghost use Rattle.bloom_forms.specs.Numbered.{AreNumbered};

    ghost invariant = { λ c. IsChecked (form_of c.module) c.heads.items × AreNumbered c.module.collections (rule_forms c.module.rules) c.rules.items };

    ghost view = { λ c. record { form = form_of c.module; heads = c.heads.items } };
}

impl Checked {
    /// A module that has no fault, with its heads in order.
    pub fn new(alloc: Global, module: Module, heads: Vec<u32>) -> Result<Checked, AllocError>
        requires { IsChecked (form_of «module») heads.items }
        ensures { IfOk result (λ checked. checked ≡ record { form = form_of «module»; heads = heads.items }) }
    {
        let rules = numbered_rules(
            alloc,
            module.collections.as_slice(),
            module.rules.as_slice(),
        )?;
        Ok(Checked {
            module,
            heads,
            rules,
        })
    }

    /// The module as it is written.
    pub fn module(&self) -> &Module
        ensures form { form_of result.now ≡ self.now.form }
        ensures checked { IsChecked self.now.form self.now.heads }
    {
        &self.module
    }

    /// All collections but the inputs, by number, in an order in which a rule's head follows what the rule reads.
    pub fn heads(&self) -> &[u32]
        ensures { result.now ≡ self.now.heads }
    {
        &self.heads
    }

    /// The rules in the order of the text, with their names as numbers.
    pub fn rules(&self) -> &[NumberedRule]
        ensures numbered { AreNumbered self.now.form.collections self.now.form.rules result.now }
    {
        &self.rules
    }

    /// An equal checked module of its own.
    pub fn copy(&self, alloc: Global) -> Result<Checked, AllocError>
        ensures { IfOk result (λ copy. copy ≡ self.now) }
    {
        let written = self.module.copy(alloc)?;
        let heads = Vec::from_slice(alloc, &self.heads)?;
        Checked::new(alloc, written, heads)
    }
}

impl Clone for Checked {
    ghost is_clone = { λ one clone. clone ≡ one };

    fn clone(&self) -> Result<Checked, AllocError> {
        self.copy(*self.heads.allocator())
    }
}

impl Faithful for Checked {
    ghost equal = { λ _ _ same. same };
}
