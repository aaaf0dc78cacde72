//! The text of `run`.
//!
//! What a net answers is what the execution has for which it stands, so each clause speaks of all
//! data and steps for which its books stand.
ghost use Rattle.std.specs.Prelude.{◌≡◌, ◌<◌, ◌++◌, IfOk, OnOk, [], ◌∷◌, false, length};
ghost use Rattle.std.specs.List.{flat_map};
ghost use Rattle.blz_set.specs.References.{shown};
ghost use Rattle.blz_value.specs.Text.{record_text};
ghost use Rattle.topo_forms.specs.View.{component_numbers, stream_numbers, stream_replicas};
ghost use Rattle.inbox.specs.Completeness.{held_count_at, left_count};
ghost use Rattle.inbox.specs.Executions.{contents};
ghost use Rattle.inbox.specs.Wiring.{wiring_of};
ghost use Rattle.sched_net.specs.Net.{BooksRun};
ghost use Rattle.sched_net.specs.Reading.{IsRead, is_complete};
ghost use Rattle.report_print.specs.RunText as spec;
ghost use Rattle.report_lines.specs.Words.{inner_line};
ghost use Rattle.report_print.specs.Code.Runs.{IsNetOf, run_after};

use blz_value::Record;
use report_lines::{Word, push_inner_line, push_line};
use sched_net::Net;
use std::alloc::{AllocError, Global};
use topo_forms::Valid;

/// A topology, and a net of it that isn't ended.
#[derive(Clone, Copy)]
pub(crate) struct Ran<'a> {
    pub(crate) alloc: Global,
    pub(crate) valid: &'a Valid,
    pub(crate) net: &'a Net<'a>,
}

impl Ran<'_> {
    // The records of a sending replica of a stream, in record order.
    fn sorted_rows(&self, stream: u32, replica: u32) -> Result<Vec<&Record>, AllocError>
        requires ran { IsNetOf self.now.valid.now.view self.now.net.now.valid.now.view self.now.net.now.books }
        requires within { replica < stream_replicas self.now.valid.now.view stream }
        ensures { IfOk result (λ rows. IsRead self.now.valid.now.view self.now.net.now.books (λ given x. contents (wiring_of self.now.valid.now.view) given x stream replica) (shown rows.items)) }
    {
        self.net.sorted_rows(stream, replica)
    }

    fn held(&self, component: u32, replica: u32) -> u64
        requires ran { IsNetOf self.now.valid.now.view self.now.net.now.valid.now.view self.now.net.now.books }
        ensures { IsRead self.now.valid.now.view self.now.net.now.books (λ given x. held_count_at (wiring_of self.now.valid.now.view) x component replica) result }
    {
        self.net.held(component, replica)
    }

    fn left(&self) -> u64
        requires ran { IsNetOf self.now.valid.now.view self.now.net.now.valid.now.view self.now.net.now.books }
        ensures { IsRead self.now.valid.now.view self.now.net.now.books (left_count (wiring_of self.now.valid.now.view)) result }
    {
        self.net.left()
    }

    fn is_complete(&self) -> bool
        requires ran { IsNetOf self.now.valid.now.view self.now.net.now.valid.now.view self.now.net.now.books }
        ensures { IsRead self.now.valid.now.view self.now.net.now.books (is_complete self.now.valid.now.view) result }
    {
        self.net.is_complete()
    }

    fn push_rows(&self, rows: &[&Record], text: &mut Vec<u8>) -> Result<(), AllocError>
        ensures { OnOk result (text.new.items ≡ text.old.items ++ flat_map (λ row. inner_line (record_text row ∷ [])) (shown rows.now)) }
    {
        for row in rows {
            push_inner_line(self.alloc, &[Word::Row(*row)], text)?;
        }
        Ok(())
    }

    fn push_rows_of(
        &self,
        stream: u32,
        replica: u32,
        rows: &[&Record],
        text: &mut Vec<u8>,
    ) -> Result<(), AllocError>
        requires { stream < length self.now.valid.now.view.streams }
        ensures { OnOk result (text.new.items ≡ text.old.items ++ spec.rows_lines self.now.valid.now.view stream replica (shown rows.now)) }
    {
        let words = [
            Word::Plain(self.valid.stream_name(stream).as_str()),
            Word::Number(replica),
            Word::Large(rows.len() as u64),
        ];
        push_line(self.alloc, &words, text)?;
        self.push_rows(rows, text)
    }

    fn push_contents(&self, stream: u32, replica: u32, text: &mut Vec<u8>) -> Result<(), AllocError>
        requires ran { IsNetOf self.now.valid.now.view self.now.net.now.valid.now.view self.now.net.now.books }
        requires stream { stream < length self.now.valid.now.view.streams }
        requires replica { replica < stream_replicas self.now.valid.now.view stream }
        ensures { OnOk result (IsRead self.now.valid.now.view self.now.net.now.books (λ given x. text.old.items ++ spec.contents_lines self.now.valid.now.view given x stream replica) text.new.items) }
    {
        let rows = self.sorted_rows(stream, replica)?;
        self.push_rows_of(stream, replica, &rows, text)?;
        Ok(())
    }

    fn push_stream(&self, stream: u32, text: &mut Vec<u8>) -> Result<(), AllocError>
        requires ran { IsNetOf self.now.valid.now.view self.now.net.now.valid.now.view self.now.net.now.books }
        requires within { stream < length self.now.valid.now.view.streams }
        ensures { OnOk result (IsRead self.now.valid.now.view self.now.net.now.books (λ given x. text.old.items ++ spec.stream_lines self.now.valid.now.view given x stream) text.new.items) }
    {
        for replica in 0..self.valid.stream_replicas(stream) {
            self.push_contents(stream, replica, text)?;
        }
        Ok(())
    }

    fn push_streams(&self, text: &mut Vec<u8>) -> Result<(), AllocError>
        requires ran { IsNetOf self.now.valid.now.view self.now.net.now.valid.now.view self.now.net.now.books }
        ensures { OnOk result (IsRead self.now.valid.now.view self.now.net.now.books (λ given x. text.old.items ++ flat_map (spec.stream_lines self.now.valid.now.view given x) (stream_numbers self.now.valid.now.view)) text.new.items) }
    {
        for stream in 0..self.valid.stream_count() {
            self.push_stream(stream, text)?;
        }
        Ok(())
    }

    fn push_held_line(
        &self,
        component: u32,
        replica: u32,
        held: u64,
        text: &mut Vec<u8>,
    ) -> Result<(), AllocError>
        requires { component < length self.now.valid.now.view.components }
        ensures { OnOk result (text.new.items ≡ text.old.items ++ spec.held_line self.now.valid.now.view component replica held) }
    {
        if held == 0 {
            return Ok(());
        }
        let words = [
            Word::Plain("held"),
            Word::Plain(self.valid.component_name(component).as_str()),
            Word::Number(replica),
            Word::Large(held),
        ];
        push_line(self.alloc, &words, text)
    }

    fn push_held(&self, component: u32, text: &mut Vec<u8>) -> Result<(), AllocError>
        requires ran { IsNetOf self.now.valid.now.view self.now.net.now.valid.now.view self.now.net.now.books }
        requires within { component < length self.now.valid.now.view.components }
        ensures { OnOk result (IsRead self.now.valid.now.view self.now.net.now.books (λ given x. text.old.items ++ spec.held_lines self.now.valid.now.view x component) text.new.items) }
    {
        for replica in 0..self.valid.replicas(component) {
            let held = self.held(component, replica);
            self.push_held_line(component, replica, held, text)?;
        }
        Ok(())
    }

    fn push_all_held(&self, text: &mut Vec<u8>) -> Result<(), AllocError>
        requires ran { IsNetOf self.now.valid.now.view self.now.net.now.valid.now.view self.now.net.now.books }
        ensures { OnOk result (IsRead self.now.valid.now.view self.now.net.now.books (λ given x. text.old.items ++ flat_map (spec.held_lines self.now.valid.now.view x) (component_numbers self.now.valid.now.view)) text.new.items) }
    {
        for component in 0..self.valid.component_count() {
            self.push_held(component, text)?;
        }
        Ok(())
    }

    fn push_incomplete(&self, left: u64, text: &mut Vec<u8>) -> Result<(), AllocError>
        ensures { OnOk result (text.new.items ≡ text.old.items ++ spec.end_lines false left) }
    {
        push_line(self.alloc, &[Word::Plain("left"), Word::Large(left)], text)?;
        push_line(self.alloc, &[Word::Plain("incomplete")], text)
    }

    /// Appends that the execution is complete, or how much is left.
    pub(crate) fn push_end(&self, text: &mut Vec<u8>) -> Result<(), AllocError>
        requires ran { IsNetOf self.now.valid.now.view self.now.net.now.valid.now.view self.now.net.now.books }
        ensures { OnOk result (IsRead self.now.valid.now.view self.now.net.now.books (λ given x. text.old.items ++ spec.end_lines (is_complete self.now.valid.now.view given x) (left_count (wiring_of self.now.valid.now.view) given x)) text.new.items) }
    {
        if self.is_complete() {
            push_line(self.alloc, &[Word::Plain("complete")], text)?;
            return Ok(());
        }
        self.push_incomplete(self.left(), text)?;
        Ok(())
    }

    // Adds the text of a run.
    fn push_run(&self, text: &mut Vec<u8>) -> Result<(), AllocError>
        requires ran { IsNetOf self.now.valid.now.view self.now.net.now.valid.now.view self.now.net.now.books }
        ensures { OnOk result (IsRead self.now.valid.now.view self.now.net.now.books (run_after text.old.items self.now.valid.now.view) text.new.items) }
    {
        self.push_streams(text)?;
        self.push_all_held(text)?;
        self.push_end(text)
    }
}

/// The text of `run`: of each stream in order and each sending replica the records of its emitted
/// list, then what is held, and then whether anything is left. The net is one of this topology that
/// isn't ended.
pub fn run_text(alloc: Global, valid: &Valid, net: &Net<'_>) -> Result<Vec<u8>, AllocError>
    requires runs { BooksRun valid.now.view net.now.books }
    requires same { net.now.valid.now.view ≡ valid.now.view }
    ensures { IfOk result (λ text. IsRead valid.now.view net.now.books (spec.run_text valid.now.view) text.items) }
{
    let ran = Ran { alloc, valid, net };
    let mut text = Vec::new(alloc);
    ran.push_run(&mut text)?;
    Ok(text)
}
