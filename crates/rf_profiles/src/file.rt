//! Profile files: a TOML document with a table for each profile.

ghost use Rattle.std.specs.Prelude.{◌≡◌, ◌≢◌, ◌≤◌, [], true, Ok, Err, IfOk, IfErr, length};
ghost use Rattle.std.specs.List.{list_all};
ghost use Rattle.toml.specs.View.{table_view, view};
ghost use Rattle.rf_profiles.specs.Profile.{differ, is_width, profile_names, widths};
ghost use Rattle.rf_profiles.specs.File as spec;

use crate::fault::{Field, ProfilesFault};
use crate::profile::Profile;
use crate::table::{channels_at, has_further_key, margins_at, width_at, width_or_zero_at};
use rf_base::Name;
use std::alloc::Global;
use toml::{Table, Value};

/// The profiles of a file of at most 16,777,216 bytes, in the order of their keys. `Toml` exactly where the bytes are no
/// TOML document, else `BadProfile` exactly where a profile is bad. `Memory` where no memory is found. The names of the
/// profiles differ, and no spacing, half width or margin is above 100,000 kHz.
pub fn read_profiles(alloc: Global, bytes: &[u8]) -> Result<Vec<Profile>, ProfilesFault>
    requires { length bytes.now ≤ 16777216 }
    ensures profiles { IfOk result (λ profiles. spec.profiles_of bytes.now ≡ Ok profiles.items) }
    ensures fault { IfErr result (λ e. e ≢ ProfilesFault.Memory → spec.profiles_of bytes.now ≡ Err e) }
    ensures names { IfOk result (λ profiles. differ (profile_names profiles.items) ≡ true) }
    ensures numbers { IfOk result (λ profiles. list_all (λ p. list_all is_width (widths p)) profiles.items ≡ true) }
{
    match toml::table_from_slice(alloc, bytes) {
        Ok(table) => profiles_in(alloc, &table),
        Err(e) => {
            if e.is_memory() {
                Err(ProfilesFault::Memory)
            } else {
                Err(ProfilesFault::Toml)
            }
        }
    }
}

// The profiles in a table, in the order of their keys.
fn profiles_in(alloc: Global, table: &Table) -> Result<Vec<Profile>, ProfilesFault>
    ensures profiles { IfOk result (λ profiles. spec.profiles_from 1 [] (table_view table.now) ≡ Ok profiles.items) }
    ensures fault { IfErr result (λ e. e ≢ ProfilesFault.Memory → spec.profiles_from 1 [] (table_view table.now) ≡ Err e) }
    ensures names { IfOk result (λ profiles. differ (profile_names profiles.items) ≡ true) }
    ensures numbers { IfOk result (λ profiles. list_all (λ p. list_all is_width (widths p)) profiles.items ≡ true) }
{
    let mut profiles = Vec::new(alloc);
    let mut number = 0u32;
    for (key, value) in table {
        // No file has so many profiles.
        number = match number.checked_add(1) {
            Some(number) => number,
            None => return Err(ProfilesFault::Memory),
        };
        let profile = match profile_at(key.as_str(), value) {
            Ok(profile) => profile,
            Err(field) => return Err(ProfilesFault::BadProfile { number, field }),
        };
        if profiles.push(profile).is_err() {
            return Err(ProfilesFault::Memory);
        }
    }
    Ok(profiles)
}

// The profile at a key, or the first field that is wrong.
#[tactic(auto, unfolding(crate::specs::File::profile_at))]
fn profile_at(key: &str, value: &Value) -> Result<Profile, Field>
    ensures exact { result ≡ spec.profile_at key.now (view value.now) }
    ensures name { IfOk result (λ p. p.name ≡ key.now) }
    ensures numbers { IfOk result (λ p. list_all is_width (widths p) ≡ true) }
{
    match Name::read(key.as_bytes()) {
        None => Err(Field::Name),
        Some(name) => match value.as_table() {
            None => Err(Field::Table),
            Some(table) => profile_with(name, table),
        },
    }
}

fn profile_with(name: Name, table: &Table) -> Result<Profile, Field>
    ensures exact { result ≡ spec.profile_with name (table_view table.now) }
    ensures name { IfOk result (λ p. p.name ≡ name) }
    ensures numbers { IfOk result (λ p. list_all is_width (widths p) ≡ true) }
{
    let channels = channels_at(table).ok_or(Field::Ranges)?;
    let spacing = width_at(table, "spacing").ok_or(Field::Spacing)?;
    let half = width_or_zero_at(table, "half").ok_or(Field::Half)?;
    let margins = margins_at(table)?;
    if has_further_key(table) {
        return Err(Field::Other);
    }
    Ok(Profile {
        name,
        channels,
        spacing,
        half,
        margins,
    })
}
