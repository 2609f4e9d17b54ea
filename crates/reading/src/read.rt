// A reading: load, start, and one run; with requests one more, in which they come.
use crate::shown::Shown;
use console::caught::caught_in;
use console::options::Options;
use console::print::{Reading, Teller};
use engine::run::{Ran, run};
use in_place::reading::reading;
use mcode::Refusal;

// A reading, and the channels that its READs took.
#[derive(Clone, Copy)]
pub struct Read {
    pub shown: Shown,
    pub channels: u16,
}

// Reads images with the options, in the memory that is lent for it, and tells of them.
#[derive(Drop)]
pub struct Reader<'a> {
    pub teller: Teller<'a>,
    pub options: Options,
    pub map: &'a mut [u32],
    pub store: &'a mut [u16],
}

impl Reader<'_> {
    // The run with requests, behind the one without them, which answered `ran`; where they do not come, the requests are as given. The counts
    // add, and the channels are united.
    fn requested(&mut self, ran: Ran, image: &[u8], outputs: &mut [u16], inputs: &[u16]) -> Ran {
        let options = self.options;
        if !options.comes_to_requests(ran.ending) {
            return Ran {
                requests: options.requests,
                ..ran
            };
        }
        let quiet = options.quiet_steps();
        let map = &mut *self.map;
        let store = &mut *self.store;
        let next = run(
            ran.machine,
            image,
            map,
            store,
            outputs,
            inputs,
            options.steps - quiet,
            options.requests,
        );
        Ran {
            count: quiet.saturating_add(next.count),
            channels: ran.channels | next.channels,
            ..next
        }
    }

    // The reading of an image with these inputs.
    pub fn read(&mut self, image: &[u8], inputs: [u16; 16]) -> Result<Read, Refusal> {
        let mut outputs = [0u16; 16];
        let quiet = reading(
            image,
            self.map,
            self.store,
            &mut outputs,
            &inputs,
            self.options.quiet_steps(),
        );
        let ran = self.requested(quiet, image, &mut outputs, &inputs);
        let shown = Shown {
            reading: Reading::new(ran.ending?, ran.count, ran.machine, outputs),
            left: ran.requests,
            caught: caught_in(image, self.store),
        };
        Ok(Read {
            shown,
            channels: ran.channels,
        })
    }
}
