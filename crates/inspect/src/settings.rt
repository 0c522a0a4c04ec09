// The settings of a pass, one by one, in the card's order.
ghost use Rattle.std.specs.Prelude.{◌≡◌, slice_get};
ghost use Rattle.inspect.specs.Settings.{setting_of};

use cards::station::Pass;

// A binary32 number, or a whole number.
#[derive(Clone, Copy)]
pub enum Setting {
    Real(f32),
    Whole(u8),
}

fn place(settings: &[Setting], j: usize) -> Option<Setting>
    ensures { result ≡ slice_get settings.now j }
{
    settings.get(j).copied()
}

// The setting at place j of a pass, counted from 0, if it has so many.
pub fn setting_at(pass: Pass, j: usize) -> Option<Setting>
    ensures { result ≡ setting_of pass j }
{
    match pass {
        Pass::Ntsc { strength, bleed } => {
            place(&[Setting::Real(strength), Setting::Whole(bleed)], j)
        }
        Pass::Bloom {
            threshold,
            strength,
            radius,
        } => {
            place(
                &[
                    Setting::Whole(threshold),
                    Setting::Real(strength),
                    Setting::Whole(radius),
                ],
                j,
            )
        }
        Pass::AutoGradient {
            strength,
            vertical,
            horizontal,
        } => {
            place(
                &[
                    Setting::Real(strength),
                    Setting::Real(vertical),
                    Setting::Real(horizontal),
                ],
                j,
            )
        }
        Pass::Persistence { amount, depth } => {
            place(&[Setting::Real(amount), Setting::Whole(depth)], j)
        }
        Pass::Lut { preset, strength } => {
            place(&[Setting::Whole(preset), Setting::Real(strength)], j)
        }
        Pass::Curvature { amount } => place(&[Setting::Real(amount)], j),
        Pass::ColorCorrection {
            brightness,
            contrast,
            saturation,
            gamma,
        } => {
            place(
                &[
                    Setting::Real(brightness),
                    Setting::Real(contrast),
                    Setting::Real(saturation),
                    Setting::Real(gamma),
                ],
                j,
            )
        }
        Pass::Crt { strength } => place(&[Setting::Real(strength)], j),
        Pass::Vignette { strength } => place(&[Setting::Real(strength)], j),
        Pass::Scanlines { strength } => place(&[Setting::Real(strength)], j),
    }
}
