//! How threads are told apart: by one of eight colours, dark and middle ones in turn, and by a texture, which grey shows too. So the
//! first eight threads differ in grey, and so do the next eight; any 32 that follow one another differ in colour or texture.

ghost use Rattle.std.specs.Prelude.{◌≡◌, ◌++◌, OnOk};
ghost use Rattle.sd_timeline.specs.Colours.{colour_by, colour_name, colour_of, run_class, spin_class, texture_by, texture_cover, texture_of};

use crate::pieces::put_cover;
use std::alloc::AllocError;

/// The colour of a thread.
#[derive(Clone, Copy)]
pub(crate) enum Colour {
    Blue,
    Teal,
    Purple,
    Green,
    Slate,
    Pink,
    Brown,
    Sky,
}

/// What lies over the colour, in white.
#[derive(Clone, Copy)]
pub(crate) enum Texture {
    Plain,
    Dots,
    Rising,
    Falling,
}

fn colour_by(n: usize) -> Colour
    ensures { result ≡ colour_by n }
{
    if n == 0 {
        Colour::Blue
    } else if n == 1 {
        Colour::Teal
    } else if n == 2 {
        Colour::Purple
    } else if n == 3 {
        Colour::Green
    } else if n == 4 {
        Colour::Slate
    } else if n == 5 {
        Colour::Pink
    } else if n == 6 {
        Colour::Brown
    } else {
        Colour::Sky
    }
}

/// The colour of a thread, by its number.
#[tactic(auto, unfolding(crate::specs::Colours::colour_of))]
pub(crate) fn colour_of(t: usize) -> Colour
    ensures { result ≡ colour_of t }
{
    colour_by(t % 8)
}

/// The class of what is filled with a colour.
pub(crate) fn colour_name(colour: Colour) -> &'static [u8]
    ensures { result.now ≡ colour_name colour }
{
    match colour {
        Colour::Blue => b"blue",
        Colour::Teal => b"teal",
        Colour::Purple => b"purple",
        Colour::Green => b"green",
        Colour::Slate => b"slate",
        Colour::Pink => b"pink",
        Colour::Brown => b"brown",
        Colour::Sky => b"sky",
    }
}

/// The class of a bar of a thread that runs.
pub(crate) fn run_class(colour: Colour) -> &'static [u8]
    ensures { result.now ≡ run_class colour }
{
    match colour {
        Colour::Blue => b"run blue",
        Colour::Teal => b"run teal",
        Colour::Purple => b"run purple",
        Colour::Green => b"run green",
        Colour::Slate => b"run slate",
        Colour::Pink => b"run pink",
        Colour::Brown => b"run brown",
        Colour::Sky => b"run sky",
    }
}

/// The class of a bar of a thread that spins.
pub(crate) fn spin_class(colour: Colour) -> &'static [u8]
    ensures { result.now ≡ spin_class colour }
{
    match colour {
        Colour::Blue => b"blue-stripes",
        Colour::Teal => b"teal-stripes",
        Colour::Purple => b"purple-stripes",
        Colour::Green => b"green-stripes",
        Colour::Slate => b"slate-stripes",
        Colour::Pink => b"pink-stripes",
        Colour::Brown => b"brown-stripes",
        Colour::Sky => b"sky-stripes",
    }
}

fn texture_by(n: usize) -> Texture
    ensures { result ≡ texture_by n }
{
    if n == 0 {
        Texture::Plain
    } else if n == 1 {
        Texture::Dots
    } else if n == 2 {
        Texture::Rising
    } else {
        Texture::Falling
    }
}

/// The texture of a thread, by its number.
#[tactic(auto, unfolding(crate::specs::Colours::texture_of))]
pub(crate) fn texture_of(t: usize) -> Texture
    ensures { result ≡ texture_of t }
{
    texture_by((t / 2 + t / 8) % 4)
}

/// The texture over a bar of this place and size.
pub(crate) fn put_texture(
    texture: Texture,
    x: u64,
    y: u64,
    width: u64,
    height: u64,
    out: &mut Vec<u8>,
) -> Result<(), AllocError>
    ensures { OnOk result (out.new.items ≡ out.old.items ++ texture_cover texture x y width height) }
{
    match texture {
        Texture::Plain => Ok(()),
        Texture::Dots => put_cover(b"dots", x, y, width, height, out),
        Texture::Rising => put_cover(b"rising", x, y, width, height, out),
        Texture::Falling => put_cover(b"falling", x, y, width, height, out),
    }
}
