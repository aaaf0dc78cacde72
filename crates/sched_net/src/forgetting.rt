//! How an instance forgets: its tables are emptied and a life begins, while what it emitted stays.
ghost use Rattle.std.specs.Prelude.{◌≡◌, ◌<◌, ◌&&◌, None, nat_lt, length, map, slice_index_or, slice_set};
ghost use Rattle.bloom_eval.specs.Step.{nothing_kept};
ghost use Rattle.topo_forms.specs.View.{replicas_of};
ghost use Rattle.inbox.specs.Events.{forget};
ghost use Rattle.sched_net.specs.Forgetting.{ForgetAnswers, ForgetLeaves};
ghost use Rattle.sched_net.specs.Net.{Runs};
ghost use Rattle.sched_net.specs.Numbered.{component_number};
ghost use Rattle.sched_net.specs.Taking.{OneForgets};

use crate::fault::ForgetFault;
use crate::net::Net;
use crate::numbered::component_of;
use crate::seated::Seated;
use bloom_eval::Component;
use blz_value::Str;
use topo_forms::Valid;

// Whether an instance is there.
fn is_there(valid: &Valid, component: u32, replica: u32) -> bool
    ensures { result ≡ (nat_lt component (length valid.now.view.components) && nat_lt replica (replicas_of valid.now.view component)) }
{
    component < valid.component_count() && replica < valid.replicas(component)
}

// Empties what a shell keeps.
fn clear_one(shell: &mut Box<dyn Component>)
    ensures kind { kind shell.new ≡ kind shell.old }
    ensures loaded { program shell.new ≡ program shell.old }
    ensures kept { kept shell.new ≡ nothing_kept (program shell.old) }
{
    shell.clear();
}

/// Empties what the shell at a place keeps.
pub(crate) fn clear_at(shells: &mut Vec<Box<dyn Component>>, place: usize)
    requires { place < length shells.old.items }
    ensures kinds { map (λ b. kind b) shells.new.items ≡ map (λ b. kind b) shells.old.items }
    ensures loaded { map (λ b. program b) shells.new.items ≡ map (λ b. program b) shells.old.items }
    ensures kept { map (λ b. kept b) shells.new.items ≡ slice_set (map (λ b. kept b) shells.old.items) place (nothing_kept (slice_index_or (map (λ b. program b) shells.old.items) place None)) }
{
    clear_one(&mut shells[place]);
}

// The instance at a place begins a life.
fn forget_at(seats: &mut Vec<Seated>, place: usize)
    requires { place < length seats.old.items }
    ensures { OneForgets place seats.old.items seats.new.items }
{
    seats[place].ear.forget();
}

impl Net<'_> {
    /// An instance loses all that it keeps, and begins a life. What it emitted stays, and so does the
    /// log of its component. NoInstance comes where it isn't there, and changes nothing. It takes no
    /// memory.
    pub fn forget(&mut self, component: &Str, replica: u32) -> Result<(), ForgetFault>
        requires runs { Runs self.old.valid.now.view (map (λ b. program b) self.old.shells.items) (map (λ b. kept b) self.old.shells.items) self.old.books }

        // Of all steps for which the net stood: the answer, and for which it stands then.
        ensures answer { ForgetAnswers self.old.valid.now.view (map (λ b. program b) self.old.shells.items) (map (λ b. kept b) self.old.shells.items) self.old.books (forget (component_number self.old.valid.now.view component.now) replica) result }
        ensures leaves { ForgetLeaves self.old.valid.now.view (map (λ b. program b) self.old.shells.items) (map (λ b. kept b) self.old.shells.items) (map (λ b. kept b) self.new.shells.items) self.old.books self.new.books (forget (component_number self.old.valid.now.view component.now) replica) result }

        ensures valid { self.new.valid ≡ self.old.valid }
        ensures kinds { map (λ b. kind b) self.new.shells.items ≡ map (λ b. kind b) self.old.shells.items }
        ensures loaded { map (λ b. program b) self.new.shells.items ≡ map (λ b. program b) self.old.shells.items }
    {
        self.valid.known();
        self.books.lists.known();
        let number = component_of(self.valid, component);
        if !is_there(self.valid, number, replica) {
            return Err(ForgetFault::NoInstance);
        }
        let place = self.books.places.instance(self.valid, number, replica);
        clear_at(&mut self.shells, place);
        forget_at(&mut self.books.seats, place);
        Ok(())
    }
}
