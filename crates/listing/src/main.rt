// Lists the packets of a stream on standard input: a line a packet, or the one refusal.
#![tactic(auto)]

use plate::Fault;

fn main() {
    let mut buffer = [0u8; 65537];
    let n = console::take(&mut buffer);
    if 65536 < n {
        lister::refused(plate::refuse(Fault::Room, 0));
        return;
    }
    lister::list(&buffer[..n]);
}
