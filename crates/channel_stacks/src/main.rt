// Sends the same messages through each named channel, and prints what takes give back: an ask's number, or - for none.
#![tactic(auto)]

use channels::channel::Channel;
use channels::echo::Echo;
use channels::filter::RepeatFilter;
use channels::loss::Loss;
use channels::pool::Pool;
use channels::queue::Queue;
use messages::body::Body;
use messages::message::Message;
use std::io;

// Asks with these numbers are sent; the second 6 is sent again on purpose.
const NUMBERS: [u32; 8] = [1, 2, 3, 4, 5, 6, 6, 7];

const TAKES: usize = 18;

fn send_all<C: Channel>(channel: &mut C) {
    for number in NUMBERS {
        if let Some(message) = Message::new(1, 0, 0, Body::Ask { number }) {
            channel.send(message);
        }
    }
}

fn show_take<C: Channel>(rt: &HostRuntime, channel: &mut C) -> io::Result<()> {
    let Some(message) = channel.take() else {
        return print!(rt; " -");
    };
    if let Body::Ask { number } = message.body {
        print!(rt; " {number}")?;
    }
    Ok(())
}

fn show<C: Channel + Drop>(rt: &HostRuntime, name: &str) -> io::Result<()> {
    let mut channel = C::new(rt.alloc())?;
    send_all(&mut channel);
    print!(rt; "{name}:")?;
    for _ in 0..TAKES {
        show_take(rt, &mut channel)?;
    }
    println!(rt; "")
}

fn main(rt: HostRuntime) -> io::Result<()> {
    show::<Queue>(&rt, "queue")?;
    show::<Pool>(&rt, "pool")?;
    show::<Loss<Queue>>(&rt, "loss over queue")?;
    show::<Echo<Pool>>(&rt, "echo over pool")?;
    show::<RepeatFilter<Echo<Queue>>>(&rt, "filter over echo over queue")
}
