//! Mailboxes are shared between threads, and a seat moves to another: both hold for nodes of any type.
use crate::mail::{Mail, MailSeat};

fn share<T: Sync>(_shared: &T) {}

fn send<T: Send + Drop>(_sent: T) {}

// Mailboxes are `Sync`.
fn shares_the_mailboxes<N: Send>(mail: &Mail<N>) {
    share(mail);
}

// A seat is `Send`.
fn sends_a_seat<N: Send + Drop>(seat: MailSeat<N>) {
    send(seat);
}
