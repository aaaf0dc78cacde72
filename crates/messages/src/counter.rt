//! What came on one feed of each partition, by the numbers of partitions: how many distinct records,
//! and the least count of its seals.
ghost use Rattle.std.specs.Prelude.{◌≡◌, ◌+◌, ◌<◌, ◌≤◌, ◌^◌, ◌==◌, ◌||◌, ◌&&◌, ℕ, length, OnOk, OnErr, if◌then◌else◌, nat_le};
ghost use Rattle.messages.specs.PartitionCounts.{have_at, need_at, is_met};

use std::alloc::AllocError;

/// How many distinct records came, and the least count of a seal, where one came.
#[derive(Clone, Copy)]
pub(crate) struct Counter {
    pub(crate) have: u64,
    pub(crate) need: Option<u32>,
}

fn counter_at(counts: &[Counter], number: usize) -> Counter
    ensures have { result.have ≡ have_at counts.now number }
    ensures need { result.need ≡ need_at counts.now number }
{
    match counts.get(number) {
        Some(counter) => *counter,
        None => Counter {
            have: 0,
            need: None,
        },
    }
}

// Adds counters of nothing up to that of a partition.
fn make_room(counts: &mut Vec<Counter>, number: usize) -> Result<(), AllocError>
    ensures room { OnOk result (number < length counts.new.items) }
    ensures have { (n : ℕ) → have_at counts.new.items n ≡ have_at counts.old.items n }
    ensures need { (n : ℕ) → need_at counts.new.items n ≡ need_at counts.old.items n }
    ensures few { (most : ℕ) → number < most → length counts.old.items ≤ most → length counts.new.items ≤ most }
{
    while counts.len() <= number {
        counts.push(Counter {
            have: 0,
            need: None,
        })?;
    }
    Ok(())
}

/// Counts a record.
pub(crate) fn count_row(counts: &mut Vec<Counter>, number: usize) -> Result<(), AllocError>
    requires { have_at counts.old.items number + 1 < 2 ^ 64 }
    ensures have { OnOk result ((n : ℕ) → have_at counts.new.items n ≡ (if n == number then have_at counts.old.items n + 1 else have_at counts.old.items n)) }
    ensures need { (n : ℕ) → need_at counts.new.items n ≡ need_at counts.old.items n }
    ensures few { (most : ℕ) → number < most → length counts.old.items ≤ most → length counts.new.items ≤ most }
    ensures err { OnErr result ((n : ℕ) → have_at counts.new.items n ≡ have_at counts.old.items n) }
{
    let was = counter_at(counts, number);
    make_room(counts, number)?;
    counts[number] = Counter {
        have: was.have + 1,
        need: was.need,
    };
    Ok(())
}

// The least count of the seals, with one more.
fn least_with(need: Option<u32>, count: u32) -> u32
    ensures { (n : ℕ) → nat_le result n ≡ (is_met need n || nat_le count n) }
{
    match need {
        Some(least) => least.min(count),
        None => count,
    }
}

/// Notes a seal.
pub(crate) fn note_seal(
    counts: &mut Vec<Counter>,
    number: usize,
    count: u32,
) -> Result<(), AllocError>
    ensures have { (n : ℕ) → have_at counts.new.items n ≡ have_at counts.old.items n }
    ensures need { OnOk result ((n m : ℕ) → is_met (need_at counts.new.items n) m ≡ (is_met (need_at counts.old.items n) m || (n == number && nat_le count m))) }
    ensures few { (most : ℕ) → number < most → length counts.old.items ≤ most → length counts.new.items ≤ most }
    ensures err { OnErr result ((n : ℕ) → need_at counts.new.items n ≡ need_at counts.old.items n) }
{
    let was = counter_at(counts, number);
    make_room(counts, number)?;
    counts[number] = Counter {
        have: was.have,
        need: Some(least_with(was.need, count)),
    };
    Ok(())
}

/// Whether a seal of the partition came, and as many records as it counts.
pub(crate) fn is_enough(counts: &[Counter], number: usize) -> bool
    ensures { result ≡ is_met (need_at counts.now number) (have_at counts.now number) }
{
    let was = counter_at(counts, number);
    match was.need {
        Some(need) => need as u64 <= was.have,
        None => false,
    }
}
