//! How a tape keeps its links.
ghost use Rattle.std.specs.Prelude.{◌≡◌, ⊤};
ghost use Rattle.std.specs.Borrow.{Lends, sem};

use std::marker::{Model, PhantomData};

/// A form in which a tape keeps links of one type.
pub trait LinkForm<L>: Drop {
    /// The link that stands in this form.
    ghost link_of: { Self → L };

    /// Which links it can keep.
    ghost fits: { L → Type 0 };

    /// Puts the link into this form.
    ///
    /// # Complexity
    ///
    /// *O*(1).
    ///
    /// # Requires
    ///
    /// The link fits.
    fn keep(link: L) -> Self
        requires { fits link }
        ensures { link_of result ≡ link };

    /// Returns the link.
    ///
    /// # Complexity
    ///
    /// *O*(1).
    fn link(&self) -> L
        ensures link { result ≡ link_of self.now }
        ensures fits { fits result };

    /// Returns the same link in this form.
    ///
    /// # Complexity
    ///
    /// *O*(1).
    fn copied(&self) -> Self
        ensures { link_of result ≡ link_of self.now };
}

/// The form of a link that is kept as it is. Every link fits.
#[derive(Clone, Copy)]
pub struct PlainLink<L> {
    pub(crate) link: L,
}

impl<L: Copy> LinkForm<L> for PlainLink<L> {
    ghost link_of = { λ p. p.link };

    ghost fits = { λ _. ⊤ };

    #[inline(always)]
    fn keep(link: L) -> PlainLink<L> {
        PlainLink { link }
    }

    #[inline(always)]
    fn link(&self) -> L {
        self.link
    }

    #[inline(always)]
    fn copied(&self) -> PlainLink<L> {
        *self
    }
}

/// A link in the form in which a tape keeps it. Contracts see the link.
#[derive(Drop)]
pub(crate) struct KeptLink<L, F: LinkForm<L>> {
    form: F,
    of: PhantomData<L>,
}

impl<L, F: LinkForm<L>> Model for KeptLink<L, F> {
    ghost Value = { L };

    ghost coded = { L.code };

    ghost view = { λ k. F.link_of k.form };
}

impl<L, F: LinkForm<L>> KeptLink<L, F> {
    #[inline(always)]
    pub(crate) fn of(link: L) -> Self
        requires { F.fits link }
        ensures { result ≡ link }
    {
        KeptLink {
            form: F::keep(link),
            of: PhantomData,
        }
    }

    #[inline(always)]
    pub(crate) fn link(&self) -> L
        ensures link { result ≡ self.now }
        ensures fits { F.fits result }
    {
        self.form.link()
    }

    #[inline(always)]
    pub(crate) fn copied(&self) -> Self
        ensures { result ≡ self.now }
    {
        KeptLink {
            form: self.form.copied(),
            of: PhantomData,
        }
    }

    /// The form that it is kept in.
    #[inline(always)]
    pub(crate) fn form_mut(&mut self) -> &mut F
        ensures* writes_back { sem 𝓛 (Lends L.row F.row self.entry result F.link_of) }
        ensures value { F.link_of result.now ≡ self.old }
    {
        &mut self.form
    }
}
