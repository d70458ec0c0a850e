// The reader of an event's line.
ghost use Rattle.std.specs.Prelude.{◌≡◌};
ghost use Rattle.text_lines.specs.Lines.{line_of};
ghost use Rattle.answer_desk.specs.Events.{event_of, pair_event_of};

use crate::Event;
use text_lines::{pair_line, triple_line};

// A withdrawal or a boarding, if it is one.
fn read_pair_event(event: &[u8]) -> Option<Event>
    ensures { result ≡ pair_event_of (line_of event.now) }
{
    if let Some(line) = pair_line(event, 0, b"withdraw=") {
        return Some(Event::Withdraw {
            office: line.first,
            number: line.second,
        });
    }
    let Some(line) = pair_line(event, 0, b"board=") else {
        return None;
    };
    Some(Event::Board {
        head: line.first,
        turn: line.second,
    })
}

// What the first line of some bytes holds, if it is an event.
pub fn read_event(event: &[u8]) -> Option<Event>
    ensures { result ≡ event_of (line_of event.now) }
{
    if let Some(line) = triple_line(event, 0, b"file=") {
        return Some(Event::File {
            office: line.first,
            file: line.second,
            count: line.third,
        });
    }
    read_pair_event(event)
}
