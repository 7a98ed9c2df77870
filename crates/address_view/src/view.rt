//! Windows through which memory is seen.
#![tactic(auto)]

ghost use Rattle.std.specs.Prelude.{◌≡◌, ◌<◌, ◌+◌, ◌^◌, [], ◌∷◌, IfOk, IfSome, true};
ghost use Rattle.address_view.specs.Windows.{AreWindows, Fits, shows, shows_place, see, window_at, window_of, shown_at};

use std::alloc::{AllocError, Global};
use std::marker::Model;

/// A range of addresses that shows a range of memory as long. Numbers are bytes.
#[derive(Clone, Copy, Debug, PartialEq, Eq, Drop)]
pub struct Window {
    /// The first address that it shows.
    pub virt: u64,
    /// The physical address of what is seen there.
    pub phys: u64,
    /// How many addresses it shows.
    pub len: u64,
}

/// Windows that show different addresses at different places.
#[derive(Drop)]
pub struct View {
    windows: Vec<Window>,
}

impl Model for View {
    ghost use Rattle.std.specs.Prelude.{List};
    ghost use Rattle.address_view.specs.declared.view.Window.{Window as AnyWindow};
    ghost use Rattle.address_view.specs.Windows.{AreWindows};

    ghost Value = { List AnyWindow };

    ghost view = { λ v. v.windows.items };

    ghost invariant = { λ v. AreWindows v.windows.items };
}

impl View {
    /// The view through these windows.
    pub fn from_windows(list: Vec<Window>) -> View
        requires { AreWindows list.items }
        ensures { result ≡ list.items }
    {
        View { windows: list }
    }

    /// One window that shows each address of a range at itself.
    pub fn identity(alloc: Global, base: u64, len: u64) -> Result<View, AllocError>
        requires { base + len < 2 ^ 64 }
        ensures { IfOk result (λ view. view ≡ record { virt = base; phys = base; len = len } ∷ []) }
    {
        let mut windows = Vec::new(alloc);
        windows.push(Window {
            virt: base,
            phys: base,
            len,
        })?;
        Ok(View { windows })
    }

    /// What is so of every view.
    #[inline(always)]
    pub fn whole(&self)
        ensures { AreWindows self.now }
    {
        let _ = &self.windows;
    }

    /// The windows, in the order in which they were given.
    pub fn windows(&self) -> &[Window]
        ensures { result.now ≡ self.now }
    {
        self.windows.as_slice()
    }

    /// The place that an address shows, None where no window shows it.
    pub fn translate(&self, at: u64) -> Option<u64>
        ensures { result ≡ see self.now at }
    {
        let window = self.window(at)?;
        Some(window.phys + (at - window.virt))
    }

    /// The address of a place in the first window that shows it, None where none does.
    pub fn shown_at(&self, phys: u64) -> Option<u64>
        ensures { result ≡ shown_at self.now phys }
    {
        let window = self.window_of(phys)?;
        Some(window.virt + (phys - window.phys))
    }

    #[tactic(auto, using(crate::proofs::ShownLemmas::window_of_fits))]
    fn window_of(&self, phys: u64) -> Option<Window>
        ensures found { result ≡ window_of self.now phys }
        ensures fits { IfSome result (λ window. Fits window × (shows_place window phys ≡ true)) }
    {
        find_place(&self.windows, phys)
    }

    /// The window that shows an address.
    #[tactic(auto, using(crate::proofs::ViewLemmas::window_fits))]
    #[inline(always)]
    pub fn window(&self, at: u64) -> Option<Window>
        ensures found { result ≡ window_at self.now at }
        ensures fits { IfSome result (λ window. Fits window × (shows window at ≡ true)) }
    {
        find(&self.windows, at)
    }
}

#[tactic(auto, unfolding(crate::specs::Windows::window_at))]
#[inline(always)]
fn find(windows: &[Window], at: u64) -> Option<Window>
    ensures { result ≡ window_at windows.now at }
{
    for window in windows {
        if at >= window.virt && at - window.virt < window.len {
            return Some(*window);
        }
    }
    None
}

#[tactic(auto, unfolding(crate::specs::Windows::window_of))]
fn find_place(windows: &[Window], phys: u64) -> Option<Window>
    ensures { result ≡ window_of windows.now phys }
{
    for window in windows {
        if phys >= window.phys && phys - window.phys < window.len {
            return Some(*window);
        }
    }
    None
}
