//! A journal may be sent to another thread, where its sink may.

use crate::segment_journal::SegmentJournal;
use crate::sink_journal::SinkJournal;
use crate::spool_journal::SpoolJournal;
use streams::Sink;

fn may_be_sent<T: Send>(_value: &T) {}

/// It does nothing: that it is proved says that such a journal may be sent.
pub fn crosses<K: Sink + Send>(journal: &SinkJournal<K>) {
    may_be_sent(journal);
}

/// The same of a journal whose lines stand in a buffer.
pub fn spool_crosses<K: Sink + Send>(journal: &SpoolJournal<K>) {
    may_be_sent(journal);
}

/// The same of a journal in segments.
pub fn segments_cross(journal: &SegmentJournal) {
    may_be_sent(journal);
}
