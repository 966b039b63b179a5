/// What the first lines of a text say was asked: names of the states that stay, `-` where each one stays, and of the goals; or of the reward.
#[derive(Clone, Copy)]
pub enum Claim<'a> {
    Until(&'a [u8], &'a [u8]),
    Total(&'a [u8]),
}
