//! Statuses of events and enrollments.

ghost use Rattle.std.specs.Prelude.{◌≡◌, map};
ghost use Rattle.tracker_import.specs.Rules as rules;

use dh_base::items::Items;

// The statuses of events with their places. From the fourth on an event hasn't occurred.
const EVENT_STATUSES: [(&[u8], u8); 6] = [
    (b"ACTIVE", 0),
    (b"COMPLETED", 1),
    (b"VISITED", 2),
    (b"SCHEDULE", 3),
    (b"OVERDUE", 4),
    (b"SKIPPED", 5),
];

const ENROLLMENT_STATUSES: [(&[u8], u8); 3] = [
    (b"ACTIVE", 0),
    (b"COMPLETED", 1),
    (b"CANCELLED", 2),
];

// The place that stands beside a text.
fn beside(table: &[(&[u8], u8)], text: &[u8]) -> Option<u8>
    ensures { result ≡ rules.beside (map (λ entry. (entry.0.now, entry.1)) table.now) text.now }
{
    for entry in table {
        if text == entry.0 {
            return Some(entry.1);
        }
    }
    None
}

/// The place of an event's status, ACTIVE where there is none.
#[tactic(auto, unfolding(crate::specs::Rules::event_status_of, crate::specs::Rules::pending_status_of))]
pub fn event_status(text: &Option<Items<u8>>) -> Option<u8>
    ensures { result ≡ rules.status_in rules.event_status_of text.now }
{
    match text {
        Some(text) => beside(&EVENT_STATUSES, text.as_slice()),
        None => Some(0),
    }
}

/// The place of an enrollment's status, ACTIVE where there is none.
#[tactic(auto, unfolding(crate::specs::Rules::enrollment_status_of))]
pub fn enrollment_status(text: &Option<Items<u8>>) -> Option<u8>
    ensures { result ≡ rules.status_in rules.enrollment_status_of text.now }
{
    match text {
        Some(text) => beside(&ENROLLMENT_STATUSES, text.as_slice()),
        None => Some(0),
    }
}
