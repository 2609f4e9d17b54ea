// --vary: the reading tried with other values of a channel, each by itself, the other inputs as they were. By A.9 a channel that the reading
// did not take needs no trial: no value of it changes anything.
use crate::read::{Read, Reader};
use crate::shown::{Shown, same_reading};
use crate::values::{channel_of, is_comma, vary, word};
use console::given::{Given, each_given};
use console::options::{value, with_input};
use console::print::{has_bit, line};
use std::rt::Env;

impl Reader<'_> {
    // The reading with another value of the channel. It answers whether it is another one, which is then shown.
    fn put_trial(&mut self, image: &[u8], channel: u8, value: u16, first: Shown) -> bool {
        let streams = self.teller.streams;
        let inputs = with_input(self.options.inputs, channel, value);
        match self.read(image, inputs) {
            Ok(trial) if same_reading(first, trial.shown) => {
                line(
                    streams,
                    format_args!("vary {channel}={value}: the same reading"),
                );
                false
            }
            trial => {
                line(
                    streams,
                    format_args!("vary {channel}={value}: another reading"),
                );
                if let Ok(other) = trial {
                    other.shown.put(streams, self.options);
                }
                true
            }
        }
    }

    // All values of a list. It answers whether one of them gives another reading.
    fn put_trials(&mut self, image: &[u8], channel: u8, list: &[u8], first: Shown) -> bool {
        let mut changes = false;
        for text in list.split(|b| is_comma(b)) {
            if let Some(value) = word(text) {
                changes |= self.put_trial(image, channel, value, first);
            }
        }
        changes
    }

    // What the values of a channel do to the reading: CH=V1,V2,..
    fn put_channel(&mut self, image: &[u8], text: &[u8], first: Read) {
        let (Some(channel), Some(list)) = (channel_of(text), value(text)) else {
            return;
        };
        let told = if !has_bit(first.channels, channel as usize) {
            "not read, so no value of it changes the reading (none was tried)"
        } else if self.put_trials(image, channel, list, first.shown) {
            "changes the reading"
        } else {
            "the reading stays the same with each of these values"
        };
        line(self.teller.streams, format_args!("vary {channel}: {told}"));
    }

    // All that is to be tried, in the order of the arguments.
    pub fn put_variations(&mut self, rt: &impl Env, image: &[u8], first: Read) {
        each_given(rt, vary().flag, |given| {
            if let Given::Own(text) = given {
                self.put_channel(image, text, first);
            }
        });
    }
}
