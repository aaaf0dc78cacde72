//! The text of `soak`, which sums up a run.
ghost use Rattle.std.specs.Prelude.{◌≡◌, ◌<◌, ◌++◌, IfOk, OnOk, [], ◌∷◌, length, map};
ghost use Rattle.std.specs.List.{flat_map};
ghost use Rattle.blz_value.specs.NumberSets.{below};
ghost use Rattle.topo_forms.specs.View.{stream_at, stream_numbers, stream_replicas};
ghost use Rattle.label_walk.specs.Paths.{label_at};
ghost use Rattle.inbox.specs.Executions.{contents};
ghost use Rattle.inbox.specs.Wiring.{wiring_of};
ghost use Rattle.inbox.specs.Limits.{all_messages};
ghost use Rattle.sched_net.specs.Net.{BooksRun};
ghost use Rattle.sched_net.specs.Reading.{IsRead};
ghost use Rattle.report_print.specs.SoakText as spec;
ghost use Rattle.report_lines.specs.Words.{label_word};
ghost use Rattle.report_lines.specs.Lines.{word_text};
ghost use Rattle.report_print.specs.Code.Runs.{IsNetOf, soak_after};

use crate::run_lines::Ran;
use label_walk::Labels;
use report_lines::{Word, label_word, push_line};
use sched_net::Net;
use std::alloc::{AllocError, Global};
use topo_forms::Valid;

impl Ran<'_> {
    fn message_count(&self) -> usize
        requires ran { IsNetOf self.now.valid.now.view self.now.net.now.valid.now.view self.now.net.now.books }
        ensures { IsRead self.now.valid.now.view self.now.net.now.books (all_messages (wiring_of self.now.valid.now.view)) result }
    {
        self.net.message_count()
    }

    // How many records a sending replica of a stream has.
    fn record_count(&self, stream: u32, replica: u32) -> usize
        requires ran { IsNetOf self.now.valid.now.view self.now.net.now.valid.now.view self.now.net.now.books }
        requires within { replica < stream_replicas self.now.valid.now.view stream }
        ensures { IsRead self.now.valid.now.view self.now.net.now.books (λ given x. length (contents (wiring_of self.now.valid.now.view) given x stream replica)) result }
    {
        self.net.record_count(stream, replica)
    }

    // Adds the number of records of a sending replica of a stream.
    fn push_count(
        &self,
        stream: u32,
        replica: u32,
        words: &mut Vec<Word<'_>>,
    ) -> Result<(), AllocError>
        requires ran { IsNetOf self.now.valid.now.view self.now.net.now.valid.now.view self.now.net.now.books }
        requires within { replica < stream_replicas self.now.valid.now.view stream }
        ensures { OnOk result (IsRead self.now.valid.now.view self.now.net.now.books (λ given x. map word_text words.old.items ++ spec.count_word self.now.valid.now.view given x stream replica ∷ []) (map word_text words.new.items)) }
    {
        let count = self.record_count(stream, replica);
        words.push(Word::Large(count as u64))?;
        Ok(())
    }

    // Adds that of each sending replica.
    fn push_counts(&self, stream: u32, words: &mut Vec<Word<'_>>) -> Result<(), AllocError>
        requires ran { IsNetOf self.now.valid.now.view self.now.net.now.valid.now.view self.now.net.now.books }
        requires within { stream < length self.now.valid.now.view.streams }
        ensures { OnOk result (IsRead self.now.valid.now.view self.now.net.now.books (λ given x. map word_text words.old.items ++ map (spec.count_word self.now.valid.now.view given x stream) (below (stream_replicas self.now.valid.now.view stream))) (map word_text words.new.items)) }
    {
        for replica in 0..self.valid.stream_replicas(stream) {
            self.push_count(stream, replica, words)?;
        }
        Ok(())
    }

    // A stream and its label.
    fn labelled(&self, labels: &Labels, stream: u32) -> Result<Vec<Word<'_>>, AllocError>
        requires each { length labels.now ≡ length self.now.valid.now.view.streams }
        requires within { stream < length self.now.valid.now.view.streams }
        ensures { IfOk result (λ words. map word_text words.items ≡ (stream_at self.now.valid.now.view stream).name ∷ label_word self.now.valid.now.view.attributes (label_at labels.now stream) ∷ []) }
    {
        let name = Word::Plain(self.valid.stream_name(stream).as_str());
        let label = label_word(self.valid.attr_names(), labels.of(stream));
        Ok(Vec::from_slice(self.alloc, &[name, label])?)
    }

    fn push_summary(
        &self,
        labels: &Labels,
        stream: u32,
        text: &mut Vec<u8>,
    ) -> Result<(), AllocError>
        requires ran { IsNetOf self.now.valid.now.view self.now.net.now.valid.now.view self.now.net.now.books }
        requires each { length labels.now ≡ length self.now.valid.now.view.streams }
        requires within { stream < length self.now.valid.now.view.streams }
        ensures { OnOk result (IsRead self.now.valid.now.view self.now.net.now.books (λ given x. text.old.items ++ spec.stream_line self.now.valid.now.view labels.now given x stream) text.new.items) }
    {
        let mut words = self.labelled(labels, stream)?;
        self.push_counts(stream, &mut words)?;
        push_line(self.alloc, &words, text)?;
        Ok(())
    }

    fn push_summaries(&self, labels: &Labels, text: &mut Vec<u8>) -> Result<(), AllocError>
        requires ran { IsNetOf self.now.valid.now.view self.now.net.now.valid.now.view self.now.net.now.books }
        requires each { length labels.now ≡ length self.now.valid.now.view.streams }
        ensures { OnOk result (IsRead self.now.valid.now.view self.now.net.now.books (λ given x. text.old.items ++ flat_map (spec.stream_line self.now.valid.now.view labels.now given x) (stream_numbers self.now.valid.now.view)) text.new.items) }
    {
        for stream in 0..self.valid.stream_count() {
            self.push_summary(labels, stream, text)?;
        }
        Ok(())
    }

    fn push_messages(&self, text: &mut Vec<u8>) -> Result<(), AllocError>
        requires ran { IsNetOf self.now.valid.now.view self.now.net.now.valid.now.view self.now.net.now.books }
        ensures { OnOk result (IsRead self.now.valid.now.view self.now.net.now.books (λ given x. text.old.items ++ spec.messages_line self.now.valid.now.view given x) text.new.items) }
    {
        let count = self.message_count() as u64;
        push_line(
            self.alloc,
            &[Word::Plain("messages"), Word::Large(count)],
            text,
        )?;
        Ok(())
    }

    // Adds the text of a soak.
    fn push_soak(&self, batches: u32, labels: &Labels, text: &mut Vec<u8>) -> Result<(), AllocError>
        requires ran { IsNetOf self.now.valid.now.view self.now.net.now.valid.now.view self.now.net.now.books }
        requires each { length labels.now ≡ length self.now.valid.now.view.streams }
        ensures { OnOk result (IsRead self.now.valid.now.view self.now.net.now.books (soak_after text.old.items batches self.now.valid.now.view labels.now) text.new.items) }
    {
        let words = [Word::Plain("batches"), Word::Number(batches)];
        push_line(self.alloc, &words, text)?;
        self.push_summaries(labels, text)?;
        self.push_messages(text)?;
        self.push_end(text)
    }
}

/// The text of `soak` over so many batches: each stream in order with its label and the number of
/// records of each sending replica, the number of messages of all emitted lists, and then whether
/// anything is left. The net is one of this topology that isn't ended.
pub fn soak_text(
    alloc: Global,
    batches: u32,
    valid: &Valid,
    labels: &Labels,
    net: &Net<'_>,
) -> Result<Vec<u8>, AllocError>
    requires each { length labels.now ≡ length valid.now.view.streams }
    requires runs { BooksRun valid.now.view net.now.books }
    requires same { net.now.valid.now.view ≡ valid.now.view }
    ensures { IfOk result (λ text. IsRead valid.now.view net.now.books (spec.soak_text batches valid.now.view labels.now) text.items) }
{
    let ran = Ran { alloc, valid, net };
    let mut text = Vec::new(alloc);
    ran.push_soak(batches, labels, &mut text)?;
    Ok(text)
}
