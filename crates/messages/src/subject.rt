//! What a message is about.
ghost use Rattle.std.specs.Cmp.{partial_equiv_from_equiv};
ghost use Rattle.messages.specs.Subject.{is_same_subject, subject_writes};
ghost use Rattle.messages.specs.SubjectLaws.{is_same_subject_equiv, subject_writes_alike};

use blz_pool::Id;
use blz_value::Record;
use std::hash::{Hash, Hasher};

/// What stands in an emitted list once: a record, by its id in a pool, or a partition that is sealed, by
/// its key value.
#[derive(Drop)]
pub enum Subject {
    Row(Id),
    Partition(Record),
}

impl PartialEq for Subject {
    ghost eq = { is_same_subject };

    ghost laws = { partial_equiv_from_equiv is_same_subject_equiv };

    fn eq(&self, other: &Subject) -> bool {
        match (self, other) {
            (Subject::Row(id), Subject::Row(other)) => id.number() == other.number(),
            (Subject::Partition(key), Subject::Partition(other)) => key == other,
            (Subject::Row(_), Subject::Partition(_)) | (Subject::Partition(_), Subject::Row(_)) =>
                false,
        }
    }
}

impl Eq for Subject {
    ghost laws = { is_same_subject_equiv };
}

impl Hash for Subject {
    ghost hash_input = { subject_writes };

    ghost respects_eq = { subject_writes_alike };

    fn hash<H: Hasher>(&self, state: &mut H) {
        match self {
            Subject::Row(id) => state.write_u32(id.number()),
            Subject::Partition(key) => key.hash(state),
        }
    }
}
